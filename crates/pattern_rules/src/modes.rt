//! Binding modes (Rust Reference, Patterns, binding modes).
ghost use Rattle.std.specs.Prelude.{◌≡◌, ◌||◌};
ghost use Rattle.match_model.specs.Matching.{mode_behind, mode_written, to_move};
ghost use Rattle.pattern_rules.specs.Settings.{is_move};
ghost use Rattle.pattern_rules.specs.OtherRules.{written, is_free_edition};

use crate::Edition;
use match_model::Mode;

/// The binding mode behind a reference that a pattern goes through on its own.
pub fn mode_behind(mutable: bool, mode: Mode) -> Mode
    ensures { result ≡ mode_behind mutable mode }
{
    if !mutable {
        return Mode::Ref;
    }
    match mode {
        Mode::Move => Mode::RefMut,
        Mode::Ref => Mode::Ref,
        Mode::RefMut => Mode::RefMut,
    }
}

/// The mode of a name that is written with `ref` or `mut`, or with neither or both, where this binding mode holds. A
/// `mut` alone is a move.
pub fn written_mode(by_ref: bool, mutable: bool, mode: Mode) -> Mode
    ensures { result ≡ mode_written to_move (written by_ref mutable) mode }
{
    match (by_ref, mutable) {
        (false, false) => mode,
        (false, true) => Mode::Move,
        (true, false) => Mode::Ref,
        (true, true) => Mode::RefMut,
    }
}

/// Whether `ref`, `mut`, `&` and `&mut` may be written under this binding mode: always in edition 2021, and under a move
/// alone in edition 2024.
pub fn may_write_mode(edition: Edition, mode: Mode) -> bool
    ensures { result ≡ (is_free_edition edition || is_move mode) }
{
    match edition {
        Edition::E2021 => true,
        Edition::E2024 => is_move(mode),
    }
}

// Whether the binding mode is a move.
fn is_move(mode: Mode) -> bool
    ensures { result ≡ is_move mode }
{
    match mode {
        Mode::Move => true,
        Mode::Ref => false,
        Mode::RefMut => false,
    }
}
