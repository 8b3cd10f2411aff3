//! What a step lends to an operator.

use ps_mem::Slot;
use ps_names::Names;
use ps_ops_control::frames::Frames;
use ps_ops_operands::Operands;
use ps_stacks::DictionaryStack;
use ps_text::outputs::Output;
use ps_word::words::Word;

/// The dictionary stack, the topmost first.
pub type Dictionaries = DictionaryStack<Word>;

/// What a context holds (PLRM2, 3.4, 3.10).
#[derive(Drop)]
pub struct Context {
    pub operands: Operands,
    pub dictionaries: Dictionaries,
    pub frames: Frames,
    /// The address of its own `$error`.
    pub error_dictionary: u32,
}

/// Lists into which an operator reads; between operators they are empty, and keep their room.
#[derive(Drop)]
pub struct Scratch {
    pub text: Vec<u8>,
    /// What is sought in that text.
    pub sought: Vec<u8>,
    pub words: Vec<Word>,
}

/// What all contexts share beside the memory.
#[derive(Drop)]
pub struct Shared<'a> {
    /// The program of the run.
    pub program: &'a [u8],
    pub names: Names,
    /// What the run printed, at most so many bytes.
    pub printed: Output,
    pub scratch: Scratch,
}

/// What all contexts share: the memory, and what is beside it.
#[derive(Drop)]
pub struct Runtime<'a, M> {
    pub shared: Shared<'a>,
    pub memory: M,
}

/// How a step is tried.
#[derive(Clone, Copy, Debug, PartialEq, Eq)]
pub struct Attempt {
    /// Where records are logged.
    pub slot: Slot,
    /// Whether a step that asks for room raises `VMerror`.
    pub refused: bool,
}
