//! What a step of a context takes, and where that stands in the program.

ghost use Rattle.std.specs.Prelude.{◌≡◌};
ghost use Rattle.ps_walks.specs.Places as places;

use ps_ctx_readers::frames::FrameView;
use ps_places::{Origins, token_begin};

/// What a context took last.
#[derive(Clone, Copy, Debug, PartialEq, Eq)]
pub(crate) enum Taken {
    /// A token of the program, by where it begins.
    Token(usize),
    /// A token of the string of this birth number.
    Text(u64),
    /// An element of the procedure of this birth number.
    Element { birth: u64, index: u16 },
    /// Nothing that stands in the program.
    Nothing,
}

/// What a step by a frame takes.
pub(crate) fn taken_by(frame: Option<FrameView>, program: &[u8]) -> Taken
    ensures { result ≡ places.taken_by program.now frame }
{
    match frame {
        Some(FrameView::Program { at }) => Taken::Token(token_begin(program, at)),
        Some(FrameView::Text { birth, at: _ }) => Taken::Text(birth),
        Some(
            FrameView::Procedure {
                birth,
                next,
                left: _,
            },
        ) => Taken::Element { birth, index: next },
        _ => Taken::Nothing,
    }
}

impl Taken {
    /// Where it stands in the program.
    pub(crate) fn place(self, program: &[u8], origins: &Origins) -> Option<usize>
        ensures { result ≡ places.place_of program.now origins.now self }
    {
        match self {
            Taken::Token(begin) => Some(begin),
            Taken::Text(birth) => origins.object_begin(program, birth),
            Taken::Element { birth, index } => {
                origins.element_begin(program, birth, index as usize)
            }
            Taken::Nothing => None,
        }
    }

    /// The birth number of the procedure that it is an element of.
    pub(crate) fn procedure(self) -> Option<u64>
        ensures { result ≡ places.procedure_of self }
    {
        match self {
            Taken::Element { birth, index: _ } => Some(birth),
            Taken::Token(_) | Taken::Text(_) | Taken::Nothing => None,
        }
    }
}

/// What a frame took last, as far as the frame tells it; `token`: where the last token begins that
/// was taken from the program.
pub(crate) fn last_of(frame: FrameView, token: usize) -> Taken
    ensures { result ≡ places.last_of frame token }
{
    match frame {
        FrameView::Program { at: _ } => Taken::Token(token),
        FrameView::Text { birth, at: _ } => Taken::Text(birth),
        FrameView::Procedure {
            birth,
            next,
            left: _,
        } if next > 0 => Taken::Element {
            birth,
            index: next - 1,
        },
        _ => Taken::Nothing,
    }
}
