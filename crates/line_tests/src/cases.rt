// Lines with what they ask for, as the rules have them.
use model::{Call, Level, Request};

pub struct Case {
    pub line: &'static [u8],
    pub asks: Request,
}

// Every call, and where blanks may stand.
pub const PLAIN: [Case; 15] = [
    Case {
        line: b"begin 0 latest",
        asks: Request::Whole(Call::Begin {
            slot: 0,
            level: Some(Level::Latest),
        }),
    },
    Case {
        line: b"begin 1 snapshot",
        asks: Request::Whole(Call::Begin {
            slot: 1,
            level: Some(Level::Snapshot),
        }),
    },
    Case {
        line: b"begin 15 serial",
        asks: Request::Whole(Call::Begin {
            slot: 15,
            level: Some(Level::Serial),
        }),
    },
    Case {
        line: b"read 2 3 4",
        asks: Request::Whole(Call::Read {
            slot: 2,
            from: 3,
            to: 4,
        }),
    },
    Case {
        line: b"write 5 6 7",
        asks: Request::Whole(Call::Write {
            slot: 5,
            key: 6,
            value: 7,
        }),
    },
    Case {
        line: b"commit 8",
        asks: Request::Whole(Call::Commit { slot: 8 }),
    },
    Case {
        line: b"abort 9",
        asks: Request::Whole(Call::Abort { slot: 9 }),
    },
    Case {
        line: b"sweep",
        asks: Request::Whole(Call::Sweep),
    },
    Case {
        line: b"sync",
        asks: Request::Whole(Call::Sync),
    },
    Case {
        line: b"stop",
        asks: Request::Whole(Call::Stop),
    },
    Case {
        line: b"show",
        asks: Request::Whole(Call::Show),
    },
    Case {
        line: b"\tread\t2\t3\t4\t",
        asks: Request::Whole(Call::Read {
            slot: 2,
            from: 3,
            to: 4,
        }),
    },
    Case {
        line: b"  write   5  \t 6 7 ",
        asks: Request::Whole(Call::Write {
            slot: 5,
            key: 6,
            value: 7,
        }),
    },
    Case {
        line: b"commit 8\r",
        asks: Request::Whole(Call::Commit { slot: 8 }),
    },
    Case {
        line: b" show \t\r",
        asks: Request::Whole(Call::Show),
    },
];

// Words that are missing, and words too many.
pub const FAULTY: [Case; 32] = [
    Case {
        line: b"begin",
        asks: Request::Slotless(Call::Begin {
            slot: 0,
            level: Some(Level::Latest),
        }),
    },
    Case {
        line: b"begin 1",
        asks: Request::Faulty(Call::Begin {
            slot: 1,
            level: Some(Level::Latest),
        }),
    },
    Case {
        line: b"begin serial",
        asks: Request::Slotless(Call::Begin {
            slot: 0,
            level: Some(Level::Latest),
        }),
    },
    Case {
        line: b"begin 1 serial now",
        asks: Request::Faulty(Call::Begin {
            slot: 1,
            level: Some(Level::Serial),
        }),
    },
    Case {
        line: b"begin 1 serious",
        asks: Request::Whole(Call::Begin {
            slot: 1,
            level: None,
        }),
    },
    Case {
        line: b"begin 1 Serial",
        asks: Request::Whole(Call::Begin {
            slot: 1,
            level: None,
        }),
    },
    Case {
        line: b"read",
        asks: Request::Slotless(Call::Read {
            slot: 0,
            from: 0,
            to: 1,
        }),
    },
    Case {
        line: b"read 2",
        asks: Request::Faulty(Call::Read {
            slot: 2,
            from: 0,
            to: 1,
        }),
    },
    Case {
        line: b"read 2 3",
        asks: Request::Faulty(Call::Read {
            slot: 2,
            from: 3,
            to: 4,
        }),
    },
    Case {
        line: b"read 2 x 4",
        asks: Request::Faulty(Call::Read {
            slot: 2,
            from: 0,
            to: 4,
        }),
    },
    Case {
        line: b"read 2 3 x",
        asks: Request::Faulty(Call::Read {
            slot: 2,
            from: 3,
            to: 4,
        }),
    },
    Case {
        line: b"read x 3 4",
        asks: Request::Slotless(Call::Read {
            slot: 0,
            from: 3,
            to: 4,
        }),
    },
    Case {
        line: b"read 2 3 4 5",
        asks: Request::Faulty(Call::Read {
            slot: 2,
            from: 3,
            to: 4,
        }),
    },
    Case {
        line: b"read 2 4095",
        asks: Request::Faulty(Call::Read {
            slot: 2,
            from: 4095,
            to: 4096,
        }),
    },
    Case {
        line: b"read 2 4294967295 x",
        asks: Request::Faulty(Call::Read {
            slot: 2,
            from: 4294967295,
            to: 4294967295,
        }),
    },
    Case {
        line: b"write",
        asks: Request::Slotless(Call::Write {
            slot: 0,
            key: 0,
            value: 0,
        }),
    },
    Case {
        line: b"write 5",
        asks: Request::Faulty(Call::Write {
            slot: 5,
            key: 0,
            value: 0,
        }),
    },
    Case {
        line: b"write 5 6",
        asks: Request::Faulty(Call::Write {
            slot: 5,
            key: 6,
            value: 0,
        }),
    },
    Case {
        line: b"write 5 6 x",
        asks: Request::Faulty(Call::Write {
            slot: 5,
            key: 6,
            value: 0,
        }),
    },
    Case {
        line: b"write 5 x 7",
        asks: Request::Faulty(Call::Write {
            slot: 5,
            key: 0,
            value: 7,
        }),
    },
    Case {
        line: b"write x 6 7",
        asks: Request::Slotless(Call::Write {
            slot: 0,
            key: 6,
            value: 7,
        }),
    },
    Case {
        line: b"write 5 6 7 8",
        asks: Request::Faulty(Call::Write {
            slot: 5,
            key: 6,
            value: 7,
        }),
    },
    Case {
        line: b"commit",
        asks: Request::Slotless(Call::Commit { slot: 0 }),
    },
    Case {
        line: b"commit 0 now",
        asks: Request::Faulty(Call::Commit { slot: 0 }),
    },
    Case {
        line: b"commit x now",
        asks: Request::Slotless(Call::Commit { slot: 0 }),
    },
    Case {
        line: b"abort",
        asks: Request::Slotless(Call::Abort { slot: 0 }),
    },
    Case {
        line: b"abort 9 9",
        asks: Request::Faulty(Call::Abort { slot: 9 }),
    },
    Case {
        line: b"sweep 0",
        asks: Request::Faulty(Call::Sweep),
    },
    Case {
        line: b"sync now",
        asks: Request::Faulty(Call::Sync),
    },
    Case {
        line: b"stop it",
        asks: Request::Faulty(Call::Stop),
    },
    Case {
        line: b"show me all of it",
        asks: Request::Faulty(Call::Show),
    },
    Case {
        line: b"commit 8\r\r",
        asks: Request::Slotless(Call::Commit { slot: 0 }),
    },
];

// Numbers at their bounds, and words that are none.
pub const NUMBERS: [Case; 23] = [
    Case {
        line: b"commit 15",
        asks: Request::Whole(Call::Commit { slot: 15 }),
    },
    Case {
        line: b"commit 16",
        asks: Request::Whole(Call::Commit { slot: 16 }),
    },
    Case {
        line: b"read 0 4095 4096",
        asks: Request::Whole(Call::Read {
            slot: 0,
            from: 4095,
            to: 4096,
        }),
    },
    Case {
        line: b"write 0 4096 4294967295",
        asks: Request::Whole(Call::Write {
            slot: 0,
            key: 4096,
            value: 4294967295,
        }),
    },
    Case {
        line: b"write 0 0 4294967296",
        asks: Request::Faulty(Call::Write {
            slot: 0,
            key: 0,
            value: 4294967295,
        }),
    },
    Case {
        line: b"write 0 4294967296 0",
        asks: Request::Whole(Call::Write {
            slot: 0,
            key: 4294967295,
            value: 0,
        }),
    },
    Case {
        line: b"commit 4294967295",
        asks: Request::Whole(Call::Commit { slot: 4294967295 }),
    },
    Case {
        line: b"commit 4294967296",
        asks: Request::Whole(Call::Commit { slot: 4294967295 }),
    },
    Case {
        line: b"abort 18446744073709551616",
        asks: Request::Whole(Call::Abort { slot: 4294967295 }),
    },
    Case {
        line: b"read 0 0 999999999999999999999999999999",
        asks: Request::Whole(Call::Read {
            slot: 0,
            from: 0,
            to: 4294967295,
        }),
    },
    Case {
        line: b"write 0 1 18446744073709551616",
        asks: Request::Faulty(Call::Write {
            slot: 0,
            key: 1,
            value: 4294967295,
        }),
    },
    Case {
        line: b"commit 000000000000000000000000000007",
        asks: Request::Whole(Call::Commit { slot: 7 }),
    },
    Case {
        line: b"write 00 01 02",
        asks: Request::Whole(Call::Write {
            slot: 0,
            key: 1,
            value: 2,
        }),
    },
    Case {
        line: b"commit +1",
        asks: Request::Slotless(Call::Commit { slot: 0 }),
    },
    Case {
        line: b"commit -1",
        asks: Request::Slotless(Call::Commit { slot: 0 }),
    },
    Case {
        line: b"commit 0x10",
        asks: Request::Slotless(Call::Commit { slot: 0 }),
    },
    Case {
        line: b"commit 1_0",
        asks: Request::Slotless(Call::Commit { slot: 0 }),
    },
    Case {
        line: b"commit 1.0",
        asks: Request::Slotless(Call::Commit { slot: 0 }),
    },
    Case {
        line: b"commit 1,000",
        asks: Request::Slotless(Call::Commit { slot: 0 }),
    },
    Case {
        line: b"commit /",
        asks: Request::Slotless(Call::Commit { slot: 0 }),
    },
    Case {
        line: b"commit 9:",
        asks: Request::Slotless(Call::Commit { slot: 0 }),
    },
    Case {
        line: b"commit \xb2",
        asks: Request::Slotless(Call::Commit { slot: 0 }),
    },
    Case {
        line: b"write 0 1 -0",
        asks: Request::Faulty(Call::Write {
            slot: 0,
            key: 1,
            value: 0,
        }),
    },
];

// Lines whose first word is no call.
pub const UNKNOWN: [Case; 21] = [
    Case {
        line: b"",
        asks: Request::Unknown,
    },
    Case {
        line: b" ",
        asks: Request::Unknown,
    },
    Case {
        line: b"\t \t",
        asks: Request::Unknown,
    },
    Case {
        line: b"\r",
        asks: Request::Unknown,
    },
    Case {
        line: b"\r\r",
        asks: Request::Unknown,
    },
    Case {
        line: b"begins 0 latest",
        asks: Request::Unknown,
    },
    Case {
        line: b"begi",
        asks: Request::Unknown,
    },
    Case {
        line: b"BEGIN 0 latest",
        asks: Request::Unknown,
    },
    Case {
        line: b"Commit 0",
        asks: Request::Unknown,
    },
    Case {
        line: b"0 commit",
        asks: Request::Unknown,
    },
    Case {
        line: b"commit,0",
        asks: Request::Unknown,
    },
    Case {
        line: b"reads 0 1 2",
        asks: Request::Unknown,
    },
    Case {
        line: b"show\x00",
        asks: Request::Unknown,
    },
    Case {
        line: b"\x00",
        asks: Request::Unknown,
    },
    Case {
        line: b"sh ow",
        asks: Request::Unknown,
    },
    Case {
        line: b"sho\xff",
        asks: Request::Unknown,
    },
    Case {
        line: b"\xc3(",
        asks: Request::Unknown,
    },
    Case {
        line: b"\xff\xfe",
        asks: Request::Unknown,
    },
    Case {
        line: b"show\x0b",
        asks: Request::Unknown,
    },
    Case {
        line: b"\x0cshow",
        asks: Request::Unknown,
    },
    Case {
        line: b"sync\r ",
        asks: Request::Unknown,
    },
];
