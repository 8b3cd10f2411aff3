//! The steps of one context: of its texts, of its other frames, and of its unwindings
//! (PLRM2, 3.4, 3.5, 3.10).
//!
//! Why so:
//! - Steps are made in two loops: `run_ahead` for frames that go ahead, and `run_turns` for the
//!   frame that doesn't. So the common step passes through no result of the interpreter.
//! - A procedure that is entered is above the frames, and its frame is pushed late (`run_entered`).
//!   Room for two frames is asked for first (`may_do`); where there is less, steps go the general
//!   way.
//! - `do_first` neither reads nor writes the frame, which is written once. It may not grow past the
//!   size at which the kit drops `inline(always)`; what is seldom is a call.
//! - Where a procedure ends and one stands below, that one goes on in the same loop. A loop's turn
//!   does not: with it calls would cost more.
//! - `push_left` and `read_token` take a reference, so that a part or a source stays in memory and
//!   its registers are the loop's. No clause can say so.
//! - `left_of` changes a copy in place. A part written anew has its unused bytes set to zero in
//!   memory.
//! - `do_quickly` stands once in the loop of tokens, since a second copy would be a call. A number
//!   or a name is scanned in line, and every other token is scanned by a call.
//! - A string is read by windows: one serves more tokens as long as steps change operands alone,
//!   and a token that the window cuts off is scanned again (`window_is_whole`). Its list may be
//!   refused growth (`unkept`).
//! - `with_turn` takes off all frames of an `exit` at once where procedures alone stand above its
//!   loop. No clause says which exits go so.
//! - `frugal_steps` says which steps take no memory, for any `asks`.
#![tactic(auto)]

mod elements;
pub mod laws;
mod procedures;
mod runs;
mod sources;
pub mod steps;
pub mod texts;
mod tokens;
mod windows;
