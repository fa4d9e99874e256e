// Where the listing's bytes go. Its methods are in the other files, since what a file cites of the
// listing's bytes cites this struct.
ghost use Rattle.std.specs.Prelude.{◌≤◌, length};
ghost use Rattle.listing.specs.Written.{largest};

// The next byte goes to `at`. What has no room is only counted, so that the same code measures over an
// empty slice and writes. That the slice's length and the position are numbers of the machine is known of
// any, and stands here so that it is known of those behind a `&mut` too.
#[derive(Drop)]
pub struct Writer<'a> {
    pub out: &'a mut [u8],
    pub at: usize,
    ghost counted: { (length out.now ≤ largest) × (at ≤ largest) },
}
