// A warehouse at two sites, north and south, that a bridge joins.
//
// An order comes in at its site's entry, is checked, and goes by the topic exchange to a picking queue whose picker
// is there. Where none is, it goes over the bridge, and waits in a queue of the other site. While the link is down
// it goes to the retry exchange, which hands it back to the topic exchange, or, where retrying is off, to the dead
// letters. During maintenance the check sends new orders to the dead letters, and so does a queue without its picker.
//
// Conditions: c0 the link is up; c1 and c2 the pickers of the north are there, for small and for bulky parts;
// c3 the pickers of the south are there; c4 retrying is on; c5 maintenance.
use crate::example::{ALWAYS, C0, C1, C2, C3, C4, C5, Example, Forwards};

// Marks.
const EXCHANGE: u32 = 0;

const ENTRY: u32 = 1; // m0

const QUEUE: u32 = 2; // m1: a picking queue, where an order may rest

const DEAD: u32 = 4; // m2: a dead-letter queue

const SENDS: u32 = 8; // m3: the bridge end that sends

const RETRY: u32 = 16; // m4: the retry exchange

const CHECK: u32 = 32; // m5: the check of new orders

const RECEIVES: u32 = 64; // m6: the bridge end that receives

static MARKS: [u32; 18] = [
    ENTRY, // 0: north, entry
    CHECK, // 1: north, check
    EXCHANGE, // 2: north, topic exchange
    QUEUE, // 3: north, picking queue for small parts
    QUEUE, // 4: north, picking queue for bulky parts
    SENDS, // 5: north, bridge end that sends
    RECEIVES, // 6: north, bridge end that receives
    RETRY, // 7: north, retry exchange
    DEAD, // 8: north, dead letters
    ENTRY, // 9: south, entry
    CHECK, // 10: south, check
    EXCHANGE, // 11: south, topic exchange
    QUEUE, // 12: south, picking queue of the hall
    QUEUE, // 13: south, picking queue of the cold store
    SENDS, // 14: south, bridge end that sends
    RECEIVES, // 15: south, bridge end that receives
    RETRY, // 16: south, retry exchange
    DEAD, // 17: south, dead letters
];

static BINDINGS: [Forwards; 30] = [
    Forwards(0, 1, ALWAYS), // entry to check
    Forwards(1, 2, !C5), // check to topic exchange
    Forwards(1, 8, C5), // check to dead letters during maintenance
    Forwards(2, 3, C1), // topic exchange to small parts while their picker is there
    Forwards(2, 4, C2), // topic exchange to bulky parts while their picker is there
    Forwards(2, 5, !C1 & !C2 & C0), // topic exchange to the bridge where no picker is there
    Forwards(2, 7, !C1 & !C2 & !C0), // topic exchange to retry while the link is down too
    Forwards(3, 8, C5 & !C1), // small parts to dead letters, without their picker during maintenance
    Forwards(4, 8, C5 & !C2), // bulky parts to dead letters, likewise
    Forwards(5, 15, C0), // over the bridge to the south
    Forwards(5, 7, !C0), // bridge end to retry while the link is down
    Forwards(6, 3, !C2), // received orders to small parts where no picker of bulky parts is there
    Forwards(6, 4, C2), // received orders to bulky parts where theirs is
    Forwards(7, 2, C4), // retry to topic exchange
    Forwards(7, 8, !C4), // retry to dead letters where retrying is off
    Forwards(9, 10, ALWAYS), // entry to check
    Forwards(10, 11, !C5), // check to topic exchange
    Forwards(10, 17, C5), // check to dead letters during maintenance
    Forwards(11, 12, C3), // topic exchange to the hall while pickers are there
    Forwards(11, 13, C3), // topic exchange to the cold store while pickers are there
    Forwards(11, 14, !C3 & C0), // topic exchange to the bridge where no picker is there
    Forwards(11, 16, !C3 & !C0), // topic exchange to retry while the link is down too
    Forwards(12, 17, C5 & !C3), // hall to dead letters, without pickers during maintenance
    Forwards(13, 17, C5 & !C3), // cold store to dead letters, likewise
    Forwards(14, 6, C0), // over the bridge to the north
    Forwards(14, 16, !C0), // bridge end to retry while the link is down
    Forwards(15, 12, ALWAYS), // received orders to the hall
    Forwards(15, 13, ALWAYS), // received orders to the cold store
    Forwards(16, 11, C4), // retry to topic exchange
    Forwards(16, 17, !C4), // retry to dead letters where retrying is off
];

static RULES: [&[u8]; 8] = [
    // Every order comes to a queue. It breaks: while the link is down and no picker is there, topic and retry
    // exchange hand an order back and forth for ever.
    b"AF (m1 | m2)",
    // Every order comes to a queue or to a retry exchange: so each endless route goes by a retry exchange.
    b"AF (m1 | m2 | m4)",
    // Wherever an order has come to, it can still come to a queue.
    b"AG EF (m1 | m2)",
    // Orders rest in queues only: every other place hands on under every setting.
    b"AG (m1 | m2 | EX yes)",
    // An order in a picking queue stays there or goes to the dead letters.
    b"AG (!m1 | AG (m1 | m2))",
    // Every order is checked, before it comes to a picking queue or to the bridge.
    b"A[!m1 & !m3 U m5]",
    // While the link is up, what is at the sending bridge end goes over.
    b"AG (!m3 | !c0 | AX m6)",
    // Where retrying is off, what is at the retry exchange goes to the dead letters.
    b"AG (!m4 | c4 | AX m2)",
];

pub fn example() -> Example {
    Example {
        name: "warehouse",
        marks: &MARKS,
        bindings: &BINDINGS,
        rules: &RULES,
    }
}
