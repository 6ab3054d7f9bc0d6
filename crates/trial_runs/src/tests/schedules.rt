//! The command `schedule`, and the command `make`.

use super::check_run;
use meter_program::Status;
use std::alloc::Global;
use std::test::Fail;
use trial_samples::octets_of;

/// Lines, each with its end, of a text that has `; ` between them.
fn lines_of(alloc: Global, text: &str) -> Result<String, Fail> {
    let mut lines = String::new(alloc);
    for line in text.split("; ") {
        lines.push_str(line)?;
        lines.push_str("\n")?;
    }
    Ok(lines)
}

/// Schedules: a name, the lines, what is written, and what is reported.
static REPLAYS: [(&str, &str, &str, &str); 4] = [
    (
        "an ejection",
        "core 1 2 1 1 1; note 1; pin 1; load 1 0; shield 1 0 0; note 0; pin 0; load 0 0; shield 0 0 0; \
        check 0; write 0 1 0 7; replace 0 0 0 1; unshield 0 0; leave 0; note 0; advance 0; look 0 1; \
        eject 0 1; check 1; unshield 1 0; scan 0 1 0; give 0",
        "epoch 0; in 0; slot 0; set; epoch 0; in 0; slot 0; set; valid; written; replaced; cleared; out; \
        epoch 0; epoch 1; in 0; ejected; ejected; cleared; empty; given 1 left 0; epoch 1; root 0 slot 1; \
        seat 0 out noted 1 fresh 0 2 3 retired shields -; \
        seat 1 ejected 0 noted 0 fresh 4 5 6 retired shields -",
        "steps 21\n",
    ),
    (
        "a shield that holds",
        "core 1 2 1 1 1; note 1; pin 1; load 1 0; shield 1 0 0; check 1; note 0; pin 0; load 0 0; \
        shield 0 0 0; check 0; write 0 1 0 7; replace 0 0 0 1; unshield 0 0; leave 0; note 0; advance 0; \
        look 0 1; eject 0 1; scan 0 1 0; give 0; read 1 0 0; unshield 1 0; note 0; look 0 1; scan 0 1 0; \
        give 0",
        "epoch 0; in 0; slot 0; set; valid; epoch 0; in 0; slot 0; set; valid; written; replaced; cleared; \
        out; epoch 0; epoch 1; in 0; ejected; holds 0; given 0 left 1; word 0; cleared; epoch 1; passed; \
        empty; given 1 left 0; epoch 1; root 0 slot 1; seat 0 out noted 1 fresh 0 2 3 retired shields -; \
        seat 1 ejected 0 noted 0 fresh 4 5 6 retired shields -",
        "steps 26\n",
    ),
    (
        "a forced collection",
        "core 1 2 1 1 1; note 1; pin 1; load 1 0; shield 1 0 0; check 1; note 0; pin 0; load 0 0; \
        shield 0 0 0; check 0; replace 0 0 0 1; unshield 0 0; leave 0; note 0; pin 0; load 0 0; \
        shield 0 0 1; check 0; replace 0 0 1 2; unshield 0 0; leave 0; note 0; pin 0; load 0 0; \
        shield 0 0 2; check 0; replace 0 0 2 3; unshield 0 0; leave 0; note 0; advance 0; look 0 1; \
        eject 0 1; scan 0 1 0; give 0",
        "epoch 0; in 0; slot 0; set; valid; epoch 0; in 0; slot 0; set; valid; replaced; cleared; out; \
        epoch 0; in 0; slot 1; set; valid; replaced; cleared; out; epoch 0; in 0; slot 2; set; valid; \
        replaced; cleared; out; epoch 0; epoch 1; in 0; ejected; holds 0; given 2 left 1; epoch 1; \
        root 0 slot 3; seat 0 out noted 1 fresh 1 2 retired 0@0 shields -; \
        seat 1 ejected 0 noted 0 fresh 4 5 6 retired shields v0",
        "steps 35\n",
    ),
    (
        "two advances",
        "core 1 2 1 1 1; note 1; pin 1; note 0; advance 0; look 0 1; note 0; advance 0",
        "epoch 0; in 0; epoch 0; epoch 1; passed; epoch 1; epoch 2; epoch 2; root 0 slot 0; \
        seat 0 out noted 1 fresh 1 2 3 retired shields -; seat 1 in 0 noted 0 fresh 4 5 6 retired shields -",
        "steps 7\n",
    ),
];

#[test]
fn schedules_are_replayed(rt: HostRuntime) -> Result<(), Fail> {
    let alloc = rt.alloc();
    for (name, steps, written, report) in REPLAYS {
        let text = lines_of(alloc, steps)?;
        let wanted = lines_of(alloc, written)?;
        check_run(
            &rt,
            name,
            "schedule",
            text.as_str().as_bytes(),
            (Status::Done, wanted.as_str().as_bytes(), report),
        )?;
    }
    Ok(())
}

/// Texts that aren't a schedule, or have a step that isn't enabled, and their first bad line. Where all lines are in
/// the grammar it is that of the step.
static BAD: [(&str, u64); 18] = [
    ("", 1),
    ("core 1 2 1 1 1", 1),
    ("core 0 2 1 1 1\n", 1),
    ("core 1 17 1 1 1\n", 1),
    ("core 65 1 1 1 1\n", 1),
    ("core 1 2 1 1 1\nnote 1", 2),
    ("core 1 2 1 1 1\nnote 01\n", 2),
    ("core 1 2 1 1 1\nnote 1 \n", 2),
    ("core 1 2 1 1 1\nnote 65536\n", 2),
    ("core 1 2 1 1 1\n\n", 2),
    ("core 1 2 1 1 1\nwrite 0 1 0 18446744073709551616\n", 2),
    ("core 1 2 1 1 1\nload 0 0\nnote  1\n", 3),
    ("core 1 2 1 1 1\nload 0 0\nnote 1\nlook 0\n", 4),
    ("core 1 1 1 1 1\nload 0 0\n", 2),
    (
        "core 1 1 1 1 1\nload 0 0\nwrite 9 65535 0 18446744073709551615\n",
        2,
    ),
    ("core 1 1 1 1 1\nnote 0\nload 0 0\n", 3),
    ("core 1 1 1 1 1\nload 0 0\nnote  0\n", 3),
    ("core 1 1 1 1 1\nnote 0\nnote 0", 3),
];

#[test]
fn bad_schedules_are_refused(rt: HostRuntime) -> Result<(), Fail> {
    for (text, line) in BAD {
        let status = Status::BadSchedule(line);
        let report = format!(in rt.alloc(); "bad schedule line {line}\n")?;
        check_run(
            &rt,
            text,
            "schedule",
            text.as_bytes(),
            (status, b"", report.as_str()),
        )?;
    }
    Ok(())
}

#[test]
fn captures_are_made(rt: HostRuntime) -> Result<(), Fail> {
    let wanted = octets_of(
        rt.alloc(),
        &[
            "d4c3b2a1 02000400 00000000 00000000 ffff0000 65000000",
            "e8030000 00000000 1c000000 22030000 45000322 00000000 40110000 0a000000 c0000201",
            "0400 0035 030e 0000",
        ],
    )?;
    let line = "make --seed 1 --packets 1 --keys 1";
    let report = "packets 1\n";
    check_run(
        &rt,
        line,
        line,
        &[],
        (Status::Done, wanted.as_slice(), report),
    )
}
