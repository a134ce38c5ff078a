/// A call with its fields, in the order of its body. Bytes are lent from the log; token words and a draw's body
/// are given as their bytes.
#[derive(Clone, Copy, Debug, PartialEq, Eq)]
pub enum Call<'a> {
    Buffer {
        id: u32,
        size: u32,
        usage: u32,
        bind: u32,
        misc: u32,
        stride: u32,
        bytes: &'a [u8],
    },
    View {
        view: u32,
        res: u32,
        kind: u32,
        form: u32,
        components: u32,
        first: u32,
        count: u32,
    },
    CreateShader {
        id: u32,
        words: &'a [u8],
    },
    Query {
        id: u32,
        sort: u32,
    },
    Destroy {
        class: u32,
        id: u32,
    },
    SetShader {
        id: u32,
    },
    SetConstant {
        slot: u32,
        res: u32,
    },
    SetSrv {
        slot: u32,
        view: u32,
    },
    SetUav {
        slot: u32,
        view: u32,
    },
    ClearState,
    Dispatch {
        x: u32,
        y: u32,
        z: u32,
    },
    DispatchIndirect {
        res: u32,
        offset: u32,
    },
    CopyRegion {
        target: u32,
        target_offset: u32,
        source: u32,
        source_offset: u32,
        length: u32,
    },
    Copy {
        target: u32,
        source: u32,
    },
    Update {
        res: u32,
        offset: u32,
        bytes: &'a [u8],
    },
    ClearUav {
        view: u32,
        v0: u32,
        v1: u32,
        v2: u32,
        v3: u32,
    },
    SetPredication {
        kind: u32,
        id: u32,
        offset: u32,
        value: u32,
    },
    Begin {
        query: u32,
    },
    EndQuery {
        query: u32,
    },
    MapWrite {
        res: u32,
        mode: u32,
        offset: u32,
        bytes: &'a [u8],
    },
    MapRead {
        res: u32,
        flag: u32,
        offset: u32,
        length: u32,
    },
    GetData {
        query: u32,
        flag: u32,
    },
    Flush,
    FinishList {
        list: u32,
    },
    ExecuteList {
        list: u32,
        flag: u32,
    },
    Draw {
        kind: u16,
        body: &'a [u8],
    },
}
