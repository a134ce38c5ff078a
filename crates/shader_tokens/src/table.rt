// The table of instructions.

ghost use Rattle.std.specs.Prelude.{◌≡◌};
ghost use Rattle.shader_model.specs.Opcodes.{kinds, rows, row_of};

use dx_types::Form;
use shader_model::{Access, Kind, Layout, Opcode, Role, Row};

macro_rules! computes {
    ($number:literal, $name:ident, $layout:ident) => {
        Row {
            number: $number,
            name: Opcode::$name,
            layout: Layout::$layout,
            access: Access::ReachesNone,
            role: Role::Plain,
        }
    };
}

macro_rules! reaches {
    ($number:literal, $name:ident, $layout:ident, $access:expr) => {
        Row {
            number: $number,
            name: Opcode::$name,
            layout: Layout::$layout,
            access: $access,
            role: Role::Plain,
        }
    };
}

macro_rules! shapes {
    ($number:literal, $name:ident, $layout:ident, $role:expr) => {
        Row {
            number: $number,
            name: Opcode::$name,
            layout: Layout::$layout,
            access: Access::ReachesNone,
            role: $role,
        }
    };
}

const ROWS: [Row; 61] = [
    computes!(16, Mov, Ds),
    computes!(17, Movc, Dsss),
    computes!(18, Iadd, Dss),
    computes!(19, Ineg, Ds),
    computes!(20, Imad, Dsss),
    computes!(21, Imul, Ddss),
    computes!(22, Umul, Ddss),
    computes!(23, Udiv, Ddss),
    computes!(24, Imin, Dss),
    computes!(25, Imax, Dss),
    computes!(26, Umin, Dss),
    computes!(27, Umax, Dss),
    computes!(28, And, Dss),
    computes!(29, Or, Dss),
    computes!(30, Xor, Dss),
    computes!(31, Not, Ds),
    computes!(32, Ishl, Dss),
    computes!(33, Ishr, Dss),
    computes!(34, Ushr, Dss),
    computes!(35, Ieq, Dss),
    computes!(36, Ine, Dss),
    computes!(37, Ige, Dss),
    computes!(38, Ilt, Dss),
    computes!(39, Uge, Dss),
    computes!(40, Ult, Dss),
    computes!(41, Ubfe, Dsss),
    computes!(42, Ibfe, Dsss),
    computes!(43, Bfi, Dssss),
    computes!(44, Bfrev, Ds),
    computes!(45, Countbits, Ds),
    reaches!(48, LdRaw, Dst, Access::Loads(Form::Raw)),
    reaches!(49, StoreRaw, Tss, Access::Stores(Form::Raw)),
    reaches!(50, LdStructured, Dsst, Access::Loads(Form::Structured)),
    reaches!(51, StoreStructured, Tsss, Access::Stores(Form::Structured)),
    reaches!(52, LdTyped, Dst, Access::Loads(Form::Typed)),
    reaches!(53, StoreTyped, Tss, Access::Stores(Form::Typed)),
    reaches!(56, AtomicIadd, Dtsss, Access::Changes),
    reaches!(57, AtomicAnd, Dtsss, Access::Changes),
    reaches!(58, AtomicOr, Dtsss, Access::Changes),
    reaches!(59, AtomicXor, Dtsss, Access::Changes),
    reaches!(60, AtomicImin, Dtsss, Access::Changes),
    reaches!(61, AtomicImax, Dtsss, Access::Changes),
    reaches!(62, AtomicUmin, Dtsss, Access::Changes),
    reaches!(63, AtomicUmax, Dtsss, Access::Changes),
    reaches!(64, AtomicExch, Dtsss, Access::Changes),
    reaches!(65, AtomicCmpExch, Dtssss, Access::Changes),
    shapes!(80, IfNz, S, Role::If(true)),
    shapes!(81, IfZ, S, Role::If(false)),
    shapes!(82, Else, Nothing, Role::Else),
    shapes!(83, Endif, Nothing, Role::Endif),
    shapes!(84, Loop, Nothing, Role::Loop),
    shapes!(85, Endloop, Nothing, Role::Endloop),
    shapes!(86, Break, Nothing, Role::Break(None)),
    shapes!(87, BreakNz, S, Role::Break(Some(true))),
    shapes!(88, BreakZ, S, Role::Break(Some(false))),
    shapes!(89, Continue, Nothing, Role::Continue(None)),
    shapes!(90, ContinueNz, S, Role::Continue(Some(true))),
    shapes!(91, ContinueZ, S, Role::Continue(Some(false))),
    shapes!(92, Ret, Nothing, Role::Return(None)),
    shapes!(93, RetNz, S, Role::Return(Some(true))),
    shapes!(94, RetZ, S, Role::Return(Some(false))),
];

/// The rows by rising opcode.
fn rows() -> &'static [Row]
    ensures { result.now ≡ rows }
{
    &ROWS
}

/// The row of an opcode, None where no instruction has it.
pub fn find_row(number: u8) -> Option<Row>
    ensures { result ≡ row_of number }
{
    for row in rows() {
        if row.number == number {
            return Some(*row);
        }
    }
    None
}

/// The operands of an instruction, in order.
pub fn kinds(layout: Layout) -> &'static [Kind]
    ensures { result.now ≡ kinds layout }
{
    use Kind::{Destination, SlotWord, Source};
    match layout {
        Layout::Ds => &[Destination, Source],
        Layout::Dss => &[Destination, Source, Source],
        Layout::Dsss => &[Destination, Source, Source, Source],
        Layout::Dssss => &[Destination, Source, Source, Source, Source],
        Layout::Ddss => &[Destination, Destination, Source, Source],
        Layout::Dst => &[Destination, Source, SlotWord],
        Layout::Dsst => &[Destination, Source, Source, SlotWord],
        Layout::Tss => &[SlotWord, Source, Source],
        Layout::Tsss => &[SlotWord, Source, Source, Source],
        Layout::Dtsss => &[Destination, SlotWord, Source, Source, Source],
        Layout::Dtssss => &[Destination, SlotWord, Source, Source, Source, Source],
        Layout::S => &[Source],
        Layout::Nothing => &[],
    }
}
