// What was read last, as the number of a mode.
ghost use Rattle.std.specs.Prelude.{◌≡◌, ◌<◌};
ghost use Rattle.text.specs.Tokens.{class_of};
ghost use Rattle.text.specs.Machine.{has, beginning, signing, ending};
ghost use Rattle.text.specs.Survey.{mode_after};
ghost use Rattle.compose.specs.Standing.{mode_of};

use modes::act_at;

// The mode behind a token of this class.
pub fn next_mode(kind: usize, mode: usize) -> usize
    requires { (kind < 34) × (mode < 14) }
    ensures { (result < 14) × (mode_of result ≡ mode_after (mode_of mode) (class_of kind)) }
{
    let act = act_at(kind, mode);
    match act {
        // A refusal, which changes nothing.
        0 => mode,
        // One more than the mode that it leads to.
        1..=14 => act - 1,
        // A call's bracket opens: the mode argument.
        16 => 1,
        // A bracket closes: the mode part.
        18..=19 => 13,
        // Another bracket opens, or a comma: the mode operand.
        _ => 0,
    }
}

// May an operand begin here?
pub fn is_beginning(mode: usize) -> bool
    requires { mode < 14 }
    ensures { result ≡ has beginning (mode_of mode) }
{
    // The modes operand, argument and union.
    mode < 3
}

// May `-` stand before one?
pub fn is_signing(mode: usize) -> bool
    requires { mode < 14 }
    ensures { result ≡ has signing (mode_of mode) }
{
    // The modes operand and argument.
    mode < 2
}

// Is an operand whole here?
pub fn is_ending(mode: usize) -> bool
    requires { mode < 14 }
    ensures { result ≡ has ending (mode_of mode) }
{
    // The modes root, whole and part.
    mode == 3 || 12 <= mode
}
