//! What is asked of shaders and of dispatches.

use super::Row;

pub(super) static ROWS: [Row; 8] = [
    Row {
        shows: "a shader's id, then that it is free, then its words",
        log: "0 shader 0 00000000\n0 shader 65536 010000000600000001040000010000000100000001000000\n0 shader 1 010000000600000001040000010000000100000001000000\n0 shader 1 00000000\n0 shader 2 -\n0 shader 2 01000000\n0 shader 2 0100000002000000\n0 shader 2 020000000600000001040000010000000100000001000000\n0 shader 2 010000000600000001040000010000000100000000000000\n0 shader 2 010000000600000001040000010400000100000001000000\n0 shader 2 010000000600000001040000000400000200000001000000\n0 shader 65535 010000000600000001040000000400000100000001000000\n0 shader 2 010000000600000001040000010000000100000001000000\n",
        says: "1 refused OutOfRange\n2 refused OutOfRange\n4 refused IdInUse\n5 refused BadShader\n6 refused BadShader\n7 refused BadShader\n8 refused BadShader\n9 refused BadShader\n10 refused BadShader\n11 refused BadShader\nend 13\n",
    },
    Row {
        shows: "a shader that is set is in use, and what is destroyed can't be set",
        log: "0 shader 1 010000000600000001040000010000000100000001000000\n0 set-shader 2\n0 set-shader 1\n0 destroy 3 1\n0 set-shader 0\n0 destroy 3 1\n0 set-shader 1\n0 destroy 3 1\n0 shader 1 010000000600000001040000010000000100000001000000\n0 set-shader 1\n0 clear-state\n0 destroy 3 1\n",
        says: "2 refused UnknownId\n4 refused IdInUse\n7 refused UnknownId\n8 refused UnknownId\nend 12\n",
    },
    Row {
        shows: "counts up to 65535 and up to 16777216 invocations, also of a dispatch that is skipped",
        log: "0 buffer 1 4 0 0 4 0 -\n0 shader 1 010000000600000001040000010000000100000001000000\n0 set-predication 2 1 0 0\n0 dispatch 1 1 1\n0 set-shader 1\n0 dispatch 65536 1 1\n0 dispatch 1 65536 1\n0 dispatch 1 1 65536\n0 dispatch 65536 0 1\n0 dispatch 4294967295 4294967295 4294967295\n0 dispatch 65535 257 1\n0 dispatch 4097 4096 1\n0 dispatch 1 4096 4097\n0 dispatch 4096 4096 1\n0 dispatch 65535 256 1\n0 dispatch 65535 65535 0\n0 dispatch 0 0 0\n0 set-shader 0\n0 dispatch 1 1 1\n",
        says: "4 refused BadShader\n6 refused TooManyGroups\n7 refused TooManyGroups\n8 refused TooManyGroups\n9 refused TooManyGroups\n10 refused TooManyGroups\n11 refused TooManyGroups\n12 refused TooManyGroups\n13 refused TooManyGroups\n19 refused BadShader\nend 19\n",
    },
    Row {
        shows: "invocations are counted with those of a group",
        log: "0 buffer 1 4 0 0 4 0 -\n0 shader 1 010000000600000001040000000400000100000001000000\n0 set-shader 1\n0 set-predication 2 1 0 0\n0 dispatch 16384 1 1\n0 dispatch 16385 1 1\n0 dispatch 128 128 1\n0 dispatch 65535 1 1\n0 dispatch 65535 0 65535\n",
        says: "6 refused TooManyGroups\n8 refused TooManyGroups\nend 9\n",
    },
    Row {
        shows: "indirect counts are not asked as the call is made: above the limits none runs",
        log: "0 buffer 1 24 0 0 4 0 000001000100000001000000010000000100000001000000\n0 buffer 2 16 0 2 1 0 -\n0 query 1 2\n0 dispatch-indirect 1 0\n0 shader 1 010000000600000001040000010000000100000001000000\n0 set-shader 1\n0 dispatch-indirect 9 1\n0 dispatch-indirect 2 1\n0 dispatch-indirect 1 2\n0 dispatch-indirect 1 16\n0 begin 1\n0 dispatch-indirect 1 0\n0 end-query 1\n0 get-data 1 0\n0 begin 1\n0 dispatch-indirect 1 12\n0 dispatch 2 3 1\n0 end-query 1\n0 get-data 1 0\n",
        says: "4 refused BadShader\n7 refused UnknownId\n8 refused BadBind\n9 refused OutOfRange\n10 refused OutOfRange\n14 query 0\n19 query 7\nend 19\n",
    },
    Row {
        shows: "a dispatch binds whole constant buffers, whatever its shader declares and however few groups there are",
        log: "0 buffer 1 32 2 1 0 0 -\n0 shader 1 010000000600000001040000010000000100000001000000\n0 set-shader 1\n0 set-constant 5 1\n0 dispatch 0 1 1\n0 map-write 1 1 31 01\n0 set-constant 5 0\n0 map-write 1 0 0 -\n0 dispatch 1 1 1\n0 map-write 1 1 31 01\n",
        says: "6 refused InUse\nend 10\n",
    },
    Row {
        shows: "a dispatch binds the range of a view",
        log: "0 buffer 1 32 2 2 1 0 -\n0 view 1 1 0 0 0 0 4\n0 shader 1 010000000600000001040000010000000100000001000000\n0 set-shader 1\n0 set-srv 0 1\n0 dispatch 1 1 1\n0 map-write 1 1 16 ffffffffffffffffffffffffffffffff\n0 map-write 1 1 15 aabb\n",
        says: "8 refused InUse\nend 8\n",
    },
    Row {
        shows: "an indirect dispatch binds its three words",
        log: "0 buffer 1 32 2 2 4 0 -\n0 shader 1 010000000600000001040000010000000100000001000000\n0 set-shader 1\n0 dispatch-indirect 1 8\n0 map-write 1 1 4 01020304\n0 map-write 1 1 7 0102\n0 map-write 1 1 19 01\n0 map-write 1 1 20 01\n",
        says: "6 refused InUse\n7 refused InUse\nend 8\n",
    },
];
