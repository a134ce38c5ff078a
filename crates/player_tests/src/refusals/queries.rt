//! What is asked of queries.

use super::Row;

pub(super) static ROWS: [Row; 5] = [
    Row {
        shows: "a query's id is from 1 to 65535, then free, then its sort",
        log: "0 query 0 9\n0 query 65536 9\n0 query 1 0\n0 query 1 9\n0 query 2 4\n0 query 2 1\n0 query 3 2\n0 query 65535 3\n0 destroy 4 1\n0 query 1 3\n",
        says: "1 refused OutOfRange\n2 refused OutOfRange\n4 refused IdInUse\n5 refused BadUsage\nend 10\n",
    },
    Row {
        shows: "begin: a live query, no event, not begun already",
        log: "0 query 1 0\n0 query 2 1\n0 query 3 2\n0 query 4 3\n0 begin 0\n0 begin 9\n0 begin 1\n0 begin 2\n0 begin 2\n0 begin 3\n0 begin 4\n0 end-query 2\n0 begin 2\n",
        says: "5 refused UnknownId\n6 refused UnknownId\n7 refused QueryState\n9 refused QueryState\nend 13\n",
    },
    Row {
        shows: "end: a live query, an event or begun",
        log: "0 query 1 0\n0 query 2 1\n0 query 3 2\n0 query 4 3\n0 end-query 0\n0 end-query 9\n0 end-query 2\n0 end-query 3\n0 end-query 4\n0 end-query 1\n0 end-query 1\n0 begin 3\n0 end-query 3\n0 end-query 3\n",
        says: "5 refused UnknownId\n6 refused UnknownId\n7 refused QueryState\n8 refused QueryState\n9 refused QueryState\n14 refused QueryState\nend 14\n",
    },
    Row {
        shows: "get-data: a live query, a flag of 0 or 1, a query that was ended and isn't begun",
        log: "0 query 1 0\n0 query 2 1\n0 query 3 2\n0 get-data 0 2\n0 get-data 9 0\n0 get-data 1 2\n0 get-data 1 0\n0 get-data 1 1\n0 end-query 1\n0 get-data 1 2\n0 get-data 1 0\n0 get-data 1 1\n0 begin 2\n0 get-data 2 0\n0 end-query 2\n0 get-data 2 0\n0 begin 2\n0 get-data 2 0\n0 end-query 2\n0 get-data 2 1\n0 begin 3\n0 end-query 3\n0 get-data 3 0\n",
        says: "4 refused UnknownId\n5 refused UnknownId\n6 refused BadUsage\n7 refused QueryState\n8 refused QueryState\n10 refused BadUsage\n11 query 1\n12 query 1\n14 refused QueryState\n16 query 0\n18 refused QueryState\n20 query 0\n23 query 0\nend 23\n",
    },
    Row {
        shows: "a query made under a destroyed id was never ended",
        log: "0 query 1 0\n0 end-query 1\n0 get-data 1 0\n0 destroy 4 1\n0 get-data 1 0\n0 query 1 0\n0 get-data 1 0\n",
        says: "3 query 1\n5 refused UnknownId\n7 refused QueryState\nend 7\n",
    },
];
