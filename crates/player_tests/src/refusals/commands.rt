//! What is asked of dispatches without a shader, copies, updates and clears.

use super::Row;

pub(super) static ROWS: [Row; 6] = [
    Row {
        shows: "without a shader nothing is dispatched, however many groups there are",
        log: "0 dispatch 1 1 1\n0 dispatch 65536 1 1\n0 dispatch 0 0 0\n",
        says: "1 refused BadShader\n2 refused BadShader\n3 refused BadShader\nend 3\n",
    },
    Row {
        shows: "indirect counts: a live buffer of indirect arguments, three whole words inside, then the shader",
        log: "0 buffer 1 16 0 0 4 0 -\n0 buffer 2 16 0 2 1 0 -\n0 buffer 3 12 3 0 4 0 -\n0 dispatch-indirect 0 0\n0 dispatch-indirect 9 1\n0 dispatch-indirect 2 1\n0 dispatch-indirect 1 1\n0 dispatch-indirect 1 2\n0 dispatch-indirect 1 8\n0 dispatch-indirect 1 4294967292\n0 dispatch-indirect 3 4\n0 dispatch-indirect 1 4\n0 dispatch-indirect 3 0\n",
        says: "4 refused UnknownId\n5 refused UnknownId\n6 refused BadBind\n7 refused OutOfRange\n8 refused OutOfRange\n9 refused OutOfRange\n10 refused OutOfRange\n11 refused OutOfRange\n12 refused BadShader\n13 refused BadShader\nend 13\n",
    },
    Row {
        shows: "copy-region: both buffers, the target's usage, two buffers, both ranges",
        log: "0 buffer 1 16 0 0 0 0 -\n0 buffer 2 4 1 0 0 0 01020304\n0 buffer 3 16 2 2 0 0 -\n0 buffer 4 16 3 0 0 0 -\n0 copy-region 9 0 1 0 4\n0 copy-region 0 0 0 0 0\n0 copy-region 2 0 9 0 4\n0 copy-region 2 0 2 0 4\n0 copy-region 3 0 1 0 99\n0 copy-region 1 0 1 4 4\n0 copy-region 4 99 4 99 99\n0 copy-region 1 13 4 0 4\n0 copy-region 1 0 4 13 4\n0 copy-region 1 17 4 0 0\n0 copy-region 1 0 4 17 0\n0 copy-region 1 4294967295 4 0 1\n0 copy-region 1 0 4 1 4294967295\n0 copy-region 1 16 4 16 0\n0 copy-region 1 12 4 0 4\n0 copy-region 4 13 2 1 3\n0 copy-region 1 0 3 12 4\n0 map-read 4 0 12 4\n",
        says: "5 refused UnknownId\n6 refused UnknownId\n7 refused UnknownId\n8 refused BadUsage\n9 refused BadUsage\n10 refused SameSubresource\n11 refused SameSubresource\n12 refused OutOfRange\n13 refused OutOfRange\n14 refused OutOfRange\n15 refused OutOfRange\n16 refused OutOfRange\n17 refused OutOfRange\n22 bytes 00020304\nend 22\n",
    },
    Row {
        shows: "copy: both buffers, the target's usage, two buffers, one size",
        log: "0 buffer 1 16 0 0 0 0 -\n0 buffer 2 16 1 0 0 0 000102030405060708090a0b0c0d0e0f\n0 buffer 3 16 2 2 0 0 -\n0 buffer 4 16 3 0 0 0 -\n0 buffer 5 12 0 0 0 0 -\n0 copy 9 1\n0 copy 2 9\n0 copy 0 0\n0 copy 2 5\n0 copy 3 3\n0 copy 1 1\n0 copy 1 5\n0 copy 5 4\n0 copy 1 2\n0 copy 4 1\n0 map-read 4 0 0 16\n",
        says: "6 refused UnknownId\n7 refused UnknownId\n8 refused UnknownId\n9 refused BadUsage\n10 refused BadUsage\n11 refused SameSubresource\n12 refused BadSize\n13 refused BadSize\n16 bytes 000102030405060708090a0b0c0d0e0f\nend 16\n",
    },
    Row {
        shows: "update: the buffer, its usage, the range",
        log: "0 buffer 1 16 0 0 0 0 -\n0 buffer 2 4 1 0 0 0 01020304\n0 buffer 3 16 2 2 0 0 -\n0 buffer 4 16 3 0 0 0 -\n0 update 9 0 01\n0 update 0 99 -\n0 update 2 0 01\n0 update 3 99 01\n0 update 4 0 -\n0 update 1 13 01020304\n0 update 1 16 01\n0 update 1 17 -\n0 update 1 4294967295 01\n0 update 1 16 -\n0 update 1 15 aa\n0 update 1 12 bbccdd\n0 copy 4 1\n0 map-read 4 0 8 8\n",
        says: "5 refused UnknownId\n6 refused UnknownId\n7 refused BadUsage\n8 refused BadUsage\n9 refused BadUsage\n10 refused OutOfRange\n11 refused OutOfRange\n12 refused OutOfRange\n13 refused OutOfRange\n18 bytes 00000000bbccddaa\nend 18\n",
    },
    Row {
        shows: "clear-uav: the view, and its kind",
        log: "0 buffer 1 16 0 6 1 0 -\n0 buffer 2 16 3 0 0 0 -\n0 view 1 1 0 0 0 0 4\n0 view 2 1 1 0 0 1 2\n0 view 3 1 1 2 2 0 1\n0 view 4 1 1 2 1 3 1\n0 clear-uav 0 1 2 3 4\n0 clear-uav 9 1 2 3 4\n0 clear-uav 1 1 2 3 4\n0 clear-uav 2 1 2 3 4\n0 copy 2 1\n0 map-read 2 0 0 16\n0 clear-uav 3 5 6 7 8\n0 clear-uav 4 4278255360 6 7 8\n0 copy 2 1\n0 map-read 2 0 0 16\n",
        says: "7 refused UnknownId\n8 refused UnknownId\n9 refused BadBind\n12 bytes 00000000010000000100000000000000\n16 bytes 05000000060000000100000000ff00ff\nend 16\n",
    },
];
