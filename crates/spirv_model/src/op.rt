// A typed view of the instructions.

use crate::code::{AtomicCode, BinaryCode, UnaryCode};

/// An instruction with its operands. Each operand is an id or a literal; `id` is the result, and
/// `result_type` its type.
#[derive(Clone, Copy)]
pub enum Op<'a> {
    Capability {
        capability: u32,
    },
    MemoryModel {
        addressing: u32,
        model: u32,
    },
    EntryPoint {
        model: u32,
        function: u32,
        name: u32,
        name_end: u32,
        interface: &'a [u32],
    },
    ExecutionMode {
        function: u32,
        mode: u32,
        x: u32,
        y: u32,
        z: u32,
    },
    Decorate {
        target: u32,
        decoration: u32,
        values: &'a [u32],
    },
    MemberDecorate {
        target: u32,
        member: u32,
        decoration: u32,
        values: &'a [u32],
    },
    TypeVoid {
        id: u32,
    },
    TypeBool {
        id: u32,
    },
    TypeInt {
        id: u32,
        width: u32,
        sign: u32,
    },
    TypeVector {
        id: u32,
        component: u32,
        count: u32,
    },
    TypeRuntimeArray {
        id: u32,
        element: u32,
    },
    TypeStruct {
        id: u32,
        members: &'a [u32],
    },
    TypePointer {
        id: u32,
        class: u32,
        pointee: u32,
    },
    TypeFunction {
        id: u32,
        returned: u32,
    },
    Constant {
        result_type: u32,
        id: u32,
        value: u32,
    },
    Variable {
        result_type: u32,
        id: u32,
        class: u32,
        first_value: &'a [u32],
    },
    Function {
        result_type: u32,
        id: u32,
        control: u32,
        function_type: u32,
    },
    FunctionEnd,
    Load {
        result_type: u32,
        id: u32,
        pointer: u32,
    },
    Store {
        pointer: u32,
        value: u32,
    },
    AccessChain {
        result_type: u32,
        id: u32,
        base: u32,
        indexes: &'a [u32],
    },
    CompositeExtract {
        result_type: u32,
        id: u32,
        composite: u32,
        index: u32,
    },
    Unary {
        code: UnaryCode,
        result_type: u32,
        id: u32,
        a: u32,
    },
    Binary {
        code: BinaryCode,
        result_type: u32,
        id: u32,
        a: u32,
        b: u32,
    },
    Select {
        result_type: u32,
        id: u32,
        condition: u32,
        a: u32,
        b: u32,
    },
    Atomic {
        code: AtomicCode,
        result_type: u32,
        id: u32,
        pointer: u32,
        scope: u32,
        order: u32,
        value: u32,
    },
    AtomicCompareExchange {
        result_type: u32,
        id: u32,
        pointer: u32,
        scope: u32,
        equal: u32,
        unequal: u32,
        value: u32,
        comparator: u32,
    },
    LoopMerge {
        merge: u32,
        next: u32,
        control: u32,
    },
    SelectionMerge {
        merge: u32,
        control: u32,
    },
    Label {
        id: u32,
    },
    Branch {
        label: u32,
    },
    BranchConditional {
        condition: u32,
        yes: u32,
        no: u32,
    },
    Return,
}
