//! Each call, over texts that docs/FORMATS.md explains.
use super::handle::Handle;
use super::{
    switchbr_abi, switchbr_check, switchbr_end, switchbr_follow, switchbr_generate, switchbr_line,
    switchbr_open, switchbr_replay, switchbr_section, switchbr_show, switchbr_shown, switchbr_text,
    switchbr_try,
};
use std::alloc::Global;
use std::process::Abort;

const SCENARIO: &[u8] = b"scenario 1\nport 1 p1 chip 1\ncmd port up p1\nend\n";

const BAD: &[u8] = b"scenario 1\nport 1 p1 soft\nrx 2 00\n";

fn assert_told(rt: &impl Abort, found: (u8, usize), out: &[u8], wanted: (u8, usize), text: &[u8]) {
    assert_eq!(rt; found, wanted);
    assert_eq!(rt; out, text);
}

#[test]
fn transcripts(rt: HostRuntime) {
    let mut out = [b'.'; 34];
    let mut len = 9;
    let status = switchbr_replay(rt.alloc(), SCENARIO, &mut out[..31], &mut len);
    assert_told(&rt, (status, len), &out, (16, 32), &[b'.'; 34]);
    let status = switchbr_replay(rt.alloc(), SCENARIO, &mut out, &mut len);
    let told = b"transcript 1\nok 1 3\nend 1 3 0 0\n..";
    assert_told(&rt, (status, len), &out, (0, 32), told);
    let status = switchbr_replay(rt.alloc(), BAD, &mut out, &mut len);
    let told = b"transcript 1\nbad 3 port\n1 3 0 0\n..";
    assert_told(&rt, (status, len), &out, (3, 24), told);
}

#[test]
fn messages(rt: HostRuntime) {
    let mut out = [b'.'; 12];
    let mut len = 9;
    let status = switchbr_follow(rt.alloc(), b"# none\nend\n", &mut out, &mut len);
    assert_told(&rt, (status, len), &out, (0, 4), b"end\n........");
    let status = switchbr_follow(rt.alloc(), b"\nfar\n", &mut out, &mut len);
    assert_told(&rt, (status, len), &out, (3, 11), b"bad 2 word\n.");
}

#[test]
fn generated_scenarios(rt: HostRuntime) {
    let mut out = [b'.'; 2];
    let mut len = 9;
    let status = switchbr_generate(rt.alloc(), 7, 0, &mut out, &mut len);
    assert_told(&rt, (status, len), &out, (16, 211), b"..");
    let status = switchbr_generate(rt.alloc(), 7, 100_001, &mut out, &mut len);
    assert_told(&rt, (status, len), &out, (7, 0), b"..");
}

#[test]
fn lines_that_differ(rt: HostRuntime) {
    let mut line = switchbr_abi();
    let told = b"transcript 1\nok 1 3\nend 1 3 0 0\n";
    let status = switchbr_check(rt.alloc(), SCENARIO, told, &mut line);
    assert_told(&rt, (status, line as usize), b"", (0, 0), b"");
    let status = switchbr_check(rt.alloc(), SCENARIO, b"transcript 1\nok 1 2\n", &mut line);
    assert_told(&rt, (status, line as usize), b"", (1, 2), b"");
    let status = switchbr_check(rt.alloc(), BAD, told, &mut line);
    assert_told(&rt, (status, line as usize), b"", (3, 3), b"");
}

/// A line, the status of the call, and what it tells.
type Row = (&'static [u8], u8, &'static [u8]);

const BEFORE_A_SECTION: &[Row] = &[
    (b"scenario 1", 0, b"transcript 1\n"),
    (b"port 1 p1 chip 1", 0, b""),
    (b"cmd port up p1\n", 2, b""),
    (b"cmd port up p1", 0, b"ok 1 3\n"),
    (b"capture 4", 0, b""),
    (b"publish", 2, b""),
];

const WHOLE: &[Row] = &[
    (b"scenario 1", 0, b"transcript 1\n"),
    (b"port 1 p1 soft", 0, b""),
    (b"capture 0", 0, b""),
    (b"end", 0, b"end 0 0 0 0\n"),
    (b"end", 17, b""),
];

fn assert_lines(rt: &impl Abort, alloc: Global, session: &mut Handle, rows: &[Row]) {
    for row in rows {
        let (line, status, told) = *row;
        let mut out = [0; 64];
        let mut len = 9;
        let found = switchbr_line(alloc, session, line, &mut out, &mut len);
        assert_eq!(rt; (found, len), (status, told.len()));
        assert_eq!(rt; out.get(..len), Some(told));
    }
}

#[test]
fn a_session_up_to_a_bad_section(rt: HostRuntime) {
    let mut session = Handle::none();
    let mut small = [b'.'; 15];
    let mut out = [b'.'; 20];
    let mut len = 9;
    assert_eq!(&rt; switchbr_open(rt.alloc(), &mut session), 0);
    assert_lines(&rt, rt.alloc(), &mut session, BEFORE_A_SECTION);
    let status = switchbr_section(rt.alloc(), &mut session, b"end", &mut small, &mut len);
    assert_told(&rt, (status, len), &small, (2, 0), &[b'.'; 15]);
    let status = switchbr_section(rt.alloc(), &mut session, b"end\n", &mut small, &mut len);
    assert_told(&rt, (status, len), &small, (16, 16), &[b'.'; 15]);
    let status = switchbr_text(rt.alloc(), &mut session, &mut out, &mut len);
    assert_told(&rt, (status, len), &out, (3, 16), b"bad 4 capture 0\n....");
    let status = switchbr_text(rt.alloc(), &mut session, &mut out, &mut len);
    assert_told(&rt, (status, len), b"", (3, 0), b"");
    session.end(rt.alloc());
}

#[test]
fn a_session_is_opened_and_ended(rt: HostRuntime) {
    let mut session = Handle::none();
    assert_eq!(&rt; switchbr_end(rt.alloc(), &mut session), 17);
    assert_lines(&rt, rt.alloc(), &mut session, &[(b"scenario 1", 17, b"")]);
    assert_eq!(&rt; switchbr_open(rt.alloc(), &mut session), 0);
    assert_lines(
        &rt,
        rt.alloc(),
        &mut session,
        &[(b"scenario 1", 0, b"transcript 1\n")],
    );
    assert_eq!(&rt; switchbr_open(rt.alloc(), &mut session), 0);
    assert_lines(&rt, rt.alloc(), &mut session, WHOLE);
    assert_eq!(&rt; switchbr_end(rt.alloc(), &mut session), 0);
    assert_lines(&rt, rt.alloc(), &mut session, &[(b"scenario 1", 17, b"")]);
    session.end(rt.alloc());
}

const BEFORE_A_TRIAL: &[Row] = &[
    (b"scenario 1", 0, b"transcript 1\n"),
    (b"port 1 p1 chip 1", 0, b""),
];

const TRIED: &[Row] = &[
    (b"prot 2 p2 soft", 3, b"bad 3 word\n"),
    (b"port 1 p2 soft", 3, b"bad 3 port\n"),
    (b"port 2 p2 soft", 0, b""),
    (b"cmd port up p1", 0, b""),
    (b"capture 4", 0, b""),
    (b"end\n", 2, b""),
    (b"end", 0, b""),
];

const BEHIND_A_TRIAL: &[Row] = &[
    (b"port 2 p2 soft", 0, b""),
    (b"cmd port up p1", 0, b"ok 1 3\n"),
    (b"end", 0, b"end 1 3 0 0\n"),
];

fn assert_tried(rt: &impl Abort, alloc: Global, session: &mut Handle, rows: &[Row]) {
    for row in rows {
        let (line, status, told) = *row;
        let mut out = [0; 64];
        let mut len = 9;
        let found = switchbr_try(alloc, session, line, &mut out, &mut len);
        assert_eq!(rt; (found, len), (status, told.len()));
        assert_eq!(rt; out.get(..len), Some(told));
    }
}

#[test]
fn lines_are_tried(rt: HostRuntime) {
    let mut session = Handle::none();
    assert_tried(&rt, rt.alloc(), &mut session, &[(b"scenario 1", 17, b"")]);
    assert_eq!(&rt; switchbr_open(rt.alloc(), &mut session), 0);
    assert_lines(&rt, rt.alloc(), &mut session, BEFORE_A_TRIAL);
    assert_tried(&rt, rt.alloc(), &mut session, TRIED);
    let mut small = [b'.'; 9];
    let mut len = 9;
    let status = switchbr_try(rt.alloc(), &mut session, b"", &mut small, &mut len);
    assert_told(&rt, (status, len), &small, (0, 0), &[b'.'; 9]);
    let status = switchbr_try(rt.alloc(), &mut session, b"end end", &mut small, &mut len);
    assert_told(&rt, (status, len), &small, (16, 11), &[b'.'; 9]);
    assert_lines(&rt, rt.alloc(), &mut session, BEHIND_A_TRIAL);
    assert_tried(&rt, rt.alloc(), &mut session, &[(b"end", 17, b"")]);
    session.end(rt.alloc());
}

#[test]
fn tables_of_scenarios(rt: HostRuntime) {
    let mut out = [b'.'; 43];
    let mut len = 9;
    let status = switchbr_show(rt.alloc(), 1, SCENARIO, &mut out[..38], &mut len);
    assert_told(&rt, (status, len), &out, (16, 39), &[b'.'; 43]);
    let status = switchbr_show(rt.alloc(), 3, SCENARIO, &mut out, &mut len);
    assert_told(&rt, (status, len), &out, (2, 0), &[b'.'; 43]);
    let status = switchbr_show(rt.alloc(), 1, SCENARIO, &mut out, &mut len);
    let told = b"host 1 untagged\np1 1 pvid untagged\nend\n....";
    assert_told(&rt, (status, len), &out, (0, 39), told);
    let mut small = [b'.'; 15];
    let status = switchbr_show(rt.alloc(), 0, BAD, &mut small[..11], &mut len);
    assert_told(&rt, (status, len), &small, (3, 11), b"bad 3 port\n....");
}

const BEFORE_A_TABLE: &[Row] = &[
    (b"scenario 1", 0, b"transcript 1\n"),
    (b"port 1 p1 chip 1", 0, b""),
    (b"cmd port up p1", 0, b"ok 1 3\n"),
    (
        b"cmd fdb add 02:00:00:00:00:0a dev p1 vlan 1 static",
        0,
        b"ok 2 1\n",
    ),
];

/// The number of a table, the status of the call, and what it tells.
type Shown = (u8, u8, &'static [u8]);

const SHOWN: &[Shown] = &[
    (0, 0, b"02:00:00:00:00:0a dev p1 vlan 1 static\nend\n"),
    (1, 0, b"host 1 untagged\np1 1 pvid untagged\nend\n"),
    (2, 0, b"end\n"),
    (3, 2, b""),
];

fn assert_shown(rt: &impl Abort, alloc: Global, session: &mut Handle, rows: &[Shown]) {
    for row in rows {
        let (table, status, told) = *row;
        let mut out = [0; 64];
        let mut len = 9;
        let found = switchbr_shown(alloc, session, table, &mut out, &mut len);
        assert_eq!(rt; (found, len), (status, told.len()));
        assert_eq!(rt; out.get(..len), Some(told));
    }
}

#[test]
fn tables_of_a_session(rt: HostRuntime) {
    let mut session = Handle::none();
    assert_shown(&rt, rt.alloc(), &mut session, &[(0, 17, b""), (3, 2, b"")]);
    assert_eq!(&rt; switchbr_open(rt.alloc(), &mut session), 0);
    assert_shown(&rt, rt.alloc(), &mut session, &[(0, 0, b"end\n")]);
    assert_lines(&rt, rt.alloc(), &mut session, BEFORE_A_TABLE);
    assert_shown(&rt, rt.alloc(), &mut session, SHOWN);
    let bad: &[Row] = &[(b"end end", 3, b"bad 5 word\n")];
    assert_lines(&rt, rt.alloc(), &mut session, bad);
    assert_shown(&rt, rt.alloc(), &mut session, SHOWN);
    session.end(rt.alloc());
}
