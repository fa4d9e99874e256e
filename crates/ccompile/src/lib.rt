// `compile2` for programs in other languages: the answer is two numbers. The function's name begins
// with the project's, since a name is the whole program's, as in C.
#![tactic(auto)]

ghost use Rattle.std.specs.Prelude.{◌≡◌, length};
ghost use Rattle.template.specs.Compile.{answer};
ghost use Rattle.ccompile.specs.Told.{ToldIs, told_of};

use template::compile::compile2;
use template::refusal::Refusal;

// The number 0 and the listing's length, or a number from 1 to 14 and a place.
// Stays: two numbers, since C reads them.
#[repr(C)]
#[derive(Clone, Copy)]
pub struct Told {
    pub number: u32,
    pub value: usize,
}

impl From<Result<usize, Refusal>> for Told {
    ghost from_gives = { λ a t. t ≡ told_of a };

    fn from(a: Result<usize, Refusal>) -> Told {
        match a {
            Ok(n) => Told {
                number: 0,
                value: n,
            },
            Err(r) => Told {
                number: u32::from(r.reason),
                value: r.place,
            },
        }
    }
}

// Each slice comes as a pointer and a count of elements. A call that refuses leaves `out` as it was,
// one that lists changes only what its listing fills.
// Stays: the options are document 01's number, since C gives it.
#[unsafe(no_mangle)]
pub extern "C" fn havzeltis_compile2(
    text: &[u8],
    spans: &[u32],
    options: u32,
    out: &mut [u8],
) -> Told
    ensures { ToldIs (answer text.now spans.now options (length out.old)) out.old out.new result }
{
    Told::from(compile2(text, spans, options, out))
}
