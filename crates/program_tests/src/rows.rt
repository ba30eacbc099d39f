/// A script, the output of its replay, and the status.
#[derive(Clone, Copy)]
pub struct Row {
    pub script: &'static [u8],
    pub output: &'static [u8],
    pub status: u8,
}

/// No event.
pub const OPENING: Row = Row {
    script: b"config single url=redis://h:6379 connect=none response=none lib=off
end
",
    output: b"turn 0 config single url=redis://h:6379 connect=none response=none lib=off
connect 0 h:6379
",
    status: 0,
};

/// A request that is answered.
pub const ANSWERED: Row = Row {
    script: b"config single url=redis://h:6379 connect=none response=none lib=off
connected 0
submit cmd GET a
wrote 0 20
bytes 0 +x%0D%0A
end
",
    output: b"turn 0 config single url=redis://h:6379 connect=none response=none lib=off
connect 0 h:6379
turn 1 connected 0
created ok
turn 2 submit cmd GET a
start 0 0 s0.0 1 20
write 0 *2%0D%0A$3%0D%0AGET%0D%0A$1%0D%0Aa%0D%0A
turn 3 wrote 0 20
turn 4 bytes 0 +x%0D%0A
outcome s0 ok +x%0D%0A
",
    status: 0,
};

/// Two requests, the first cancelled.
pub const CANCELLED: Row = Row {
    script: b"config single url=redis://h:6379 connect=none response=none lib=off
connected 0
submit cmd GET a
submit cmd GET b
wrote 0 20
wrote 0 20
cancel 0
bytes 0 +x%0D%0A+y%0D%0A
end
",
    output: b"turn 0 config single url=redis://h:6379 connect=none response=none lib=off
connect 0 h:6379
turn 1 connected 0
created ok
turn 2 submit cmd GET a
start 0 0 s0.0 1 20
write 0 *2%0D%0A$3%0D%0AGET%0D%0A$1%0D%0Aa%0D%0A
turn 3 submit cmd GET b
start 0 1 s1.0 1 20
turn 4 wrote 0 20
write 0 *2%0D%0A$3%0D%0AGET%0D%0A$1%0D%0Ab%0D%0A
turn 5 wrote 0 20
turn 6 cancel 0
turn 7 bytes 0 +x%0D%0A+y%0D%0A
outcome s1 ok +y%0D%0A
",
    status: 0,
};

/// More bytes written than were offered.
pub const BAD_EVENT: Row = Row {
    script: b"config single url=redis://h:6379 connect=none response=none lib=off
connected 0
submit cmd GET a
wrote 0 7
wrote 0 14
end
",
    output: b"turn 0 config single url=redis://h:6379 connect=none response=none lib=off
connect 0 h:6379
turn 1 connected 0
created ok
turn 2 submit cmd GET a
start 0 0 s0.0 1 20
write 0 *2%0D%0A$3%0D%0AGET%0D%0A$1%0D%0Aa%0D%0A
turn 3 wrote 0 7
write 0 %0AGET%0D%0A$1%0D%0Aa%0D%0A
bad event 4
",
    status: 4,
};

/// No last line.
pub const WITHOUT_END: Row = Row {
    script: b"config single url=redis://h:6379 connect=none response=none lib=off
connected 0
",
    output: b"script line 3
",
    status: 2,
};

/// A command without words.
pub const EMPTY_COMMAND: Row = Row {
    script: b"config single url=redis://h:6379 connect=none response=none lib=off
connected 0
submit cmd
end
",
    output: b"turn 0 config single url=redis://h:6379 connect=none response=none lib=off
connect 0 h:6379
turn 1 connected 0
created ok
turn 2 submit cmd
outcome s0 err empty
",
    status: 0,
};

/// A shutdown answers what is open, and what comes later.
pub const SHUT_DOWN: Row = Row {
    script: b"config single url=redis://h:6379 connect=none response=none lib=off
connected 0
submit cmd GET a
shutdown
submit cmd GET b
end
",
    output: b"turn 0 config single url=redis://h:6379 connect=none response=none lib=off
connect 0 h:6379
turn 1 connected 0
created ok
turn 2 submit cmd GET a
start 0 0 s0.0 1 20
write 0 *2%0D%0A$3%0D%0AGET%0D%0A$1%0D%0Aa%0D%0A
turn 3 shutdown
close 0
outcome s0 err closed
turn 4 submit cmd GET b
outcome s1 err closed
",
    status: 0,
};

/// A URL that is no address.
pub const NO_ADDRESS: Row = Row {
    script: b"config single url=http://h:6379 response=none lib=off
connected 0
end
",
    output: b"config url\n",
    status: 3,
};
