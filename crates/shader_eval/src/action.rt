// What a plain instruction does, by its opcode.

ghost use Rattle.std.specs.Prelude.{◌≡◌};
ghost use Rattle.shader_eval.specs.Actions.{action_at};

use dx_types::Form;

/// A function of one number.
#[derive(Clone, Copy)]
pub enum One {
    Mov,
    Ineg,
    Not,
    Bfrev,
    Countbits,
}

/// A function of two numbers.
#[derive(Clone, Copy)]
pub enum Two {
    Iadd,
    Imin,
    Imax,
    Umin,
    Umax,
    And,
    Or,
    Xor,
    Ishl,
    Ishr,
    Ushr,
    Ieq,
    Ine,
    Ige,
    Ilt,
    Uge,
    Ult,
}

/// A function of three numbers.
#[derive(Clone, Copy)]
pub enum Three {
    Movc,
    Imad,
    Ubfe,
    Ibfe,
}

/// Two functions of two numbers, for two destinations.
#[derive(Clone, Copy)]
pub enum Pair {
    Imul,
    Umul,
    Udiv,
}

/// What becomes of an atomic's word: a combination of it with a value, the value, or the value where it was another.
#[derive(Clone, Copy)]
pub enum Change {
    Combine(Two),
    Exchange,
    CompareExchange,
}

/// What a plain instruction does. The insertion of a field is the one function of four numbers.
#[derive(Clone, Copy)]
pub enum Action {
    One(One),
    Two(Two),
    Three(Three),
    Insert,
    Pair(Pair),
    Load(Form),
    Store(Form),
    Change(Change),
}

/// What an opcode does, None where it is that of no plain instruction.
pub fn action_of(opcode: u8) -> Option<Action>
    ensures { result ≡ action_at opcode }
{
    match opcode {
        16 => Some(Action::One(One::Mov)),
        17 => Some(Action::Three(Three::Movc)),
        18 => Some(Action::Two(Two::Iadd)),
        19 => Some(Action::One(One::Ineg)),
        20 => Some(Action::Three(Three::Imad)),
        21 => Some(Action::Pair(Pair::Imul)),
        22 => Some(Action::Pair(Pair::Umul)),
        23 => Some(Action::Pair(Pair::Udiv)),
        24 => Some(Action::Two(Two::Imin)),
        25 => Some(Action::Two(Two::Imax)),
        26 => Some(Action::Two(Two::Umin)),
        27 => Some(Action::Two(Two::Umax)),
        28 => Some(Action::Two(Two::And)),
        29 => Some(Action::Two(Two::Or)),
        30 => Some(Action::Two(Two::Xor)),
        31 => Some(Action::One(One::Not)),
        32 => Some(Action::Two(Two::Ishl)),
        33 => Some(Action::Two(Two::Ishr)),
        34 => Some(Action::Two(Two::Ushr)),
        35 => Some(Action::Two(Two::Ieq)),
        36 => Some(Action::Two(Two::Ine)),
        37 => Some(Action::Two(Two::Ige)),
        38 => Some(Action::Two(Two::Ilt)),
        39 => Some(Action::Two(Two::Uge)),
        40 => Some(Action::Two(Two::Ult)),
        41 => Some(Action::Three(Three::Ubfe)),
        42 => Some(Action::Three(Three::Ibfe)),
        43 => Some(Action::Insert),
        44 => Some(Action::One(One::Bfrev)),
        45 => Some(Action::One(One::Countbits)),
        48 => Some(Action::Load(Form::Raw)),
        49 => Some(Action::Store(Form::Raw)),
        50 => Some(Action::Load(Form::Structured)),
        51 => Some(Action::Store(Form::Structured)),
        52 => Some(Action::Load(Form::Typed)),
        53 => Some(Action::Store(Form::Typed)),
        56 => Some(Action::Change(Change::Combine(Two::Iadd))),
        57 => Some(Action::Change(Change::Combine(Two::And))),
        58 => Some(Action::Change(Change::Combine(Two::Or))),
        59 => Some(Action::Change(Change::Combine(Two::Xor))),
        60 => Some(Action::Change(Change::Combine(Two::Imin))),
        61 => Some(Action::Change(Change::Combine(Two::Imax))),
        62 => Some(Action::Change(Change::Combine(Two::Umin))),
        63 => Some(Action::Change(Change::Combine(Two::Umax))),
        64 => Some(Action::Change(Change::Exchange)),
        65 => Some(Action::Change(Change::CompareExchange)),
        _ => None,
    }
}
