//! The logs of examples/, with the lines that they must print. `bench/examples` sees to it that both are the same.

use crate::refusals::{Row, play};
use std::test::Fail;

static ROWS: [Row; 13] = [
    Row {
        shows: "update_copy_map",
        log: "\
         0 buffer 1 16 0 0 0 0 -\n\
         0 buffer 2 16 3 0 0 0 -\n\
         0 update 1 0 000102030405060708090a0b0c0d0e0f\n\
         0 copy 2 1\n\
         0 map-read 2 0 0 16\n\
         ",
        says: "\
         5 bytes 000102030405060708090a0b0c0d0e0f\n\
         end 5\n\
         ",
    },
    Row {
        shows: "dispatch_readback",
        log: "\
         0 buffer 1 16 0 1 0 0 64000000000000000000000000000000\n\
         0 buffer 2 32 0 4 1 0 -\n\
         0 buffer 3 32 3 0 0 0 -\n\
         0 view 1 2 1 0 0 0 8\n\
         0 shader 1 0100000020000000010400000400000001000000010000000202000001000000030200000000000005040000000000000000000000000000140600001000000003000000030000000200000000000000200800002000000003000000410e000002000000020000000200000002000000310401000001000050050000400e0000\n\
         0 set-shader 1\n\
         0 set-constant 0 1\n\
         0 set-uav 0 1\n\
         0 dispatch 2 1 1\n\
         0 copy 3 2\n\
         0 map-read 3 0 0 32\n\
         ",
        says: "\
         11 bytes 6400000065000000680000006d000000740000007d0000008800000095000000\n\
         end 11\n\
         ",
    },
    Row {
        shows: "indirect_dispatch",
        log: "\
         0 buffer 1 24 0 0 4 0 -\n\
         0 update 1 0 030000000100000001000000000001000100000001000000\n\
         0 buffer 2 16 0 4 1 0 -\n\
         0 buffer 3 16 3 0 0 0 -\n\
         0 view 1 2 1 0 0 0 4\n\
         0 shader 1 010000002000000001040000010000000100000001000000020200000100000005040000000000000000000000000000120800001000000003000000410e000001000000010000000100000001000000200800002000000003000000410e000002000000020000000200000002000000310401000001000050050000400e0000\n\
         0 set-shader 1\n\
         0 set-uav 0 1\n\
         0 dispatch-indirect 1 0\n\
         0 dispatch-indirect 1 12\n\
         0 copy 3 2\n\
         0 map-read 3 0 0 16\n\
         ",
        says: "\
         12 bytes 01000000020000000300000000000000\n\
         end 12\n\
         ",
    },
    Row {
        shows: "discard_and_no_overwrite",
        log: "\
         0 buffer 1 16 2 2 0 0 -\n\
         0 buffer 2 16 3 0 0 0 -\n\
         0 map-write 1 0 0 11111111\n\
         0 copy 2 1\n\
         0 map-write 1 1 4 22222222\n\
         0 map-write 1 0 0 33333333\n\
         0 map-write 1 1 4 44444444\n\
         0 copy-region 2 8 1 0 8\n\
         0 map-write 1 1 8 55555555\n\
         0 map-write 1 1 4 66666666\n\
         0 copy-region 2 4 1 8 4\n\
         0 map-read 2 0 0 16\n\
         ",
        says: "\
         5 refused InUse\n\
         10 refused InUse\n\
         12 bytes 11111111555555553333333344444444\n\
         end 12\n\
         ",
    },
    Row {
        shows: "queries",
        log: "\
         0 shader 1 010000000600000001040000030000000100000001000000\n\
         0 set-shader 1\n\
         0 query 1 2\n\
         0 query 2 0\n\
         0 query 3 1\n\
         0 begin 1\n\
         0 begin 3\n\
         0 dispatch 2 5 1\n\
         0 dispatch 0 9 9\n\
         0 end-query 1\n\
         0 dispatch 1 1 1\n\
         0 end-query 3\n\
         0 end-query 2\n\
         0 get-data 1 0\n\
         0 get-data 3 0\n\
         0 get-data 2 0\n\
         ",
        says: "\
         14 query 30\n\
         15 query 0\n\
         16 query 1\n\
         end 16\n\
         ",
    },
    Row {
        shows: "predicate_by_query",
        log: "\
         0 buffer 1 4 0 0 0 0 11111111\n\
         0 buffer 2 4 0 0 0 0 22222222\n\
         0 buffer 3 4 3 0 0 0 -\n\
         0 query 1 3\n\
         0 begin 1\n\
         0 end-query 1\n\
         0 set-predication 1 1 0 1\n\
         0 copy 3 1\n\
         0 set-predication 1 1 0 0\n\
         0 copy 3 2\n\
         0 map-read 3 0 0 4\n\
         0 set-predication 0 0 0 0\n\
         0 copy 3 2\n\
         0 map-read 3 0 0 4\n\
         ",
        says: "\
         11 bytes 11111111\n\
         14 bytes 22222222\n\
         end 14\n\
         ",
    },
    Row {
        shows: "predicate_by_word",
        log: "\
         0 buffer 1 4 0 4 5 0 -\n\
         0 view 1 1 1 0 0 0 1\n\
         0 buffer 2 4 0 0 0 0 22222222\n\
         0 buffer 3 4 0 0 0 0 33333333\n\
         0 buffer 4 4 3 0 0 0 -\n\
         0 set-predication 2 1 0 1\n\
         0 copy 4 2\n\
         0 clear-uav 1 5 0 0 0\n\
         0 copy 4 3\n\
         0 clear-uav 1 0 0 0 0\n\
         0 map-read 4 0 0 4\n\
         0 set-predication 2 1 0 0\n\
         0 copy 4 3\n\
         0 map-read 4 0 0 4\n\
         ",
        says: "\
         11 bytes 22222222\n\
         14 bytes 33333333\n\
         end 14\n\
         ",
    },
    Row {
        shows: "refused_creations",
        log: "\
         0 buffer 0 16 0 0 0 0 -\n\
         0 buffer 1 16 0 0 0 0 -\n\
         0 buffer 1 16 0 0 0 0 -\n\
         0 buffer 2 16 4 0 0 0 -\n\
         0 buffer 2 6 0 0 0 0 -\n\
         0 buffer 2 16 3 2 0 0 -\n\
         0 buffer 2 16 0 4 1 0 -\n\
         0 view 1 9 1 0 0 0 4\n\
         0 view 1 2 0 0 0 0 4\n\
         0 view 1 2 1 1 0 0 1\n\
         0 view 1 2 1 0 0 0 5\n\
         0 view 1 2 1 0 0 0 4\n\
         0 destroy 1 2\n\
         0 shader 1 0100000002000000\n\
         0 query 1 4\n\
         0 destroy 5 1\n\
         0 destroy 6 1\n\
         1 buffer 3 16 0 0 0 0 -\n\
         17 flush\n\
         ",
        says: "\
         1 refused OutOfRange\n\
         3 refused IdInUse\n\
         4 refused BadUsage\n\
         5 refused BadSize\n\
         6 refused BadBind\n\
         8 refused UnknownId\n\
         9 refused BadBind\n\
         10 refused BadFormat\n\
         11 refused OutOfRange\n\
         13 refused IdInUse\n\
         14 refused BadShader\n\
         15 refused BadUsage\n\
         16 refused UnknownList\n\
         17 refused BadUsage\n\
         18 refused WrongContext\n\
         19 refused WrongContext\n\
         end 19\n\
         ",
    },
    Row {
        shows: "refused_commands",
        log: "\
         0 buffer 1 16 0 2 1 0 -\n\
         0 buffer 2 16 3 0 0 0 -\n\
         0 view 1 1 0 0 0 0 4\n\
         0 set-constant 0 1\n\
         0 set-constant 14 1\n\
         0 set-srv 0 7\n\
         0 set-uav 0 1\n\
         0 set-shader 1\n\
         0 dispatch 1 1 1\n\
         0 shader 1 010000000600000001040000010000000100000001000000\n\
         0 set-shader 1\n\
         0 dispatch 65536 1 1\n\
         0 dispatch-indirect 1 0\n\
         0 copy 1 1\n\
         0 copy-region 2 8 1 0 12\n\
         0 update 2 0 01020304\n\
         0 clear-uav 1 0 0 0 0\n\
         0 destroy 3 1\n\
         0 set-predication 2 1 0 0\n\
         0 execute-list 1 0\n\
         ",
        says: "\
         4 refused BadBind\n\
         5 refused OutOfRange\n\
         6 refused UnknownId\n\
         7 refused BadBind\n\
         8 refused UnknownId\n\
         9 refused BadShader\n\
         12 refused TooManyGroups\n\
         13 refused BadBind\n\
         14 refused SameSubresource\n\
         15 refused OutOfRange\n\
         16 refused BadUsage\n\
         17 refused BadBind\n\
         18 refused IdInUse\n\
         19 refused BadBind\n\
         20 refused UnknownList\n\
         end 20\n\
         ",
    },
    Row {
        shows: "refused_maps_and_queries",
        log: "\
         0 buffer 1 16 2 2 0 0 -\n\
         0 buffer 2 16 3 0 0 0 -\n\
         0 map-write 2 0 0 01020304\n\
         0 map-write 1 1 15 0102\n\
         0 map-read 1 0 0 16\n\
         0 map-read 2 0 0 0\n\
         0 copy 2 1\n\
         0 map-write 1 1 0 01\n\
         0 query 1 2\n\
         0 get-data 1 0\n\
         0 end-query 1\n\
         0 begin 1\n\
         0 begin 1\n\
         0 destroy 4 1\n\
         0 end-query 1\n\
         0 get-data 1 2\n\
         0 get-data 1 0\n\
         1 map-read 2 0 0 16\n\
         ",
        says: "\
         3 refused NotMappable\n\
         4 refused OutOfRange\n\
         5 refused NotMappable\n\
         6 refused OutOfRange\n\
         8 refused InUse\n\
         10 refused QueryState\n\
         11 refused QueryState\n\
         13 refused QueryState\n\
         14 refused IdInUse\n\
         16 refused BadUsage\n\
         17 query 0\n\
         18 refused WrongContext\n\
         end 18\n\
         ",
    },
    Row {
        shows: "refused_limits",
        log: "\
         0 buffer 1 256 2 2 0 0 -\n\
         0 buffer 2 256 2 2 0 0 -\n\
         0 buffer 3 256 2 2 0 0 -\n\
         0 buffer 4 256 2 2 0 0 -\n\
         0 buffer 5 256 2 2 0 0 -\n\
         0 buffer 6 256 2 2 0 0 -\n\
         0 buffer 7 256 2 2 0 0 -\n\
         0 buffer 8 256 2 2 0 0 -\n\
         0 buffer 9 256 2 2 0 0 -\n\
         0 buffer 10 256 2 2 0 0 -\n\
         0 buffer 11 256 2 2 0 0 -\n\
         0 buffer 12 256 2 2 0 0 -\n\
         0 buffer 13 256 2 2 0 0 -\n\
         0 buffer 14 256 2 2 0 0 -\n\
         0 buffer 15 256 2 2 0 0 -\n\
         0 buffer 16 256 2 2 0 0 -\n\
         0 buffer 17 256 2 2 0 0 -\n\
         0 buffer 18 256 2 2 0 0 -\n\
         0 buffer 19 256 2 2 0 0 -\n\
         0 buffer 20 256 2 2 0 0 -\n\
         0 buffer 21 256 2 2 0 0 -\n\
         0 buffer 22 256 2 2 0 0 -\n\
         0 buffer 23 256 2 2 0 0 -\n\
         0 buffer 24 256 2 2 0 0 -\n\
         0 buffer 25 256 2 2 0 0 -\n\
         0 buffer 26 256 2 2 0 0 -\n\
         0 buffer 27 256 2 2 0 0 -\n\
         0 buffer 28 256 2 2 0 0 -\n\
         0 buffer 29 256 2 2 0 0 -\n\
         0 buffer 30 256 2 2 0 0 -\n\
         0 buffer 31 256 2 2 0 0 -\n\
         0 buffer 32 256 2 2 0 0 -\n\
         0 buffer 33 256 2 2 0 0 -\n\
         0 buffer 34 16777216 0 0 0 0 -\n\
         0 buffer 35 16777216 0 0 0 0 -\n\
         0 buffer 36 16777216 0 0 0 0 -\n\
         0 buffer 37 16777216 0 0 0 0 -\n\
         0 buffer 38 16777216 0 0 0 0 -\n\
         0 buffer 39 16777216 0 0 0 0 -\n\
         0 buffer 40 16777216 0 0 0 0 -\n\
         0 buffer 41 16777216 0 0 0 0 -\n\
         0 buffer 42 16777216 0 0 0 0 -\n\
         0 buffer 43 16777216 0 0 0 0 -\n\
         0 buffer 44 16777216 0 0 0 0 -\n\
         0 buffer 45 16777216 0 0 0 0 -\n\
         0 buffer 46 16777216 0 0 0 0 -\n\
         0 buffer 47 16777216 0 0 0 0 -\n\
         0 buffer 48 16777216 0 0 0 0 -\n\
         0 buffer 49 16777216 0 0 0 0 -\n\
         0 destroy 1 1\n\
         0 buffer 33 256 2 2 0 0 -\n\
         0 destroy 1 34\n\
         0 buffer 49 16777216 0 0 0 0 -\n\
         ",
        says: "\
         33 refused TooManyDynamic\n\
         49 refused TooMuchMemory\n\
         end 53\n\
         ",
    },
    Row {
        shows: "list_twice",
        log: "\
         0 buffer 1 8 2 2 0 0 -\n\
         0 buffer 2 8 3 0 0 0 -\n\
         1 map-write 1 0 0 11111111\n\
         1 copy-region 2 0 1 0 4\n\
         1 finish-list 1\n\
         0 execute-list 1 0\n\
         0 map-write 1 1 4 22222222\n\
         0 copy-region 2 4 1 4 4\n\
         0 map-read 2 0 0 8\n\
         0 execute-list 1 0\n\
         0 copy-region 2 0 1 0 8\n\
         0 map-read 2 0 0 8\n\
         ",
        says: "\
         9 bytes 1111111122222222\n\
         12 bytes 1111111100000000\n\
         end 12\n\
         ",
    },
    Row {
        shows: "cleared_context",
        log: "\
         0 shader 1 010000000600000001040000030000000100000001000000\n\
         0 set-shader 1\n\
         1 clear-state\n\
         1 finish-list 1\n\
         0 execute-list 1 1\n\
         0 dispatch 1 1 1\n\
         0 execute-list 1 0\n\
         0 dispatch 1 1 1\n\
         ",
        says: "\
         8 refused BadShader\n\
         end 8\n\
         ",
    },
];

#[test]
fn examples(rt: HostRuntime) -> Result<(), Fail> {
    play(&rt, rt.alloc(), &[&ROWS[..]], 1)
}
