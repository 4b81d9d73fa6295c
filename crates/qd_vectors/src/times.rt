//! Values from outside: worked examples, and Python's `datetime`.
ghost use Rattle.std.specs.Prelude.{◌≤◌};
ghost use Rattle.qd_base.specs.declared.limits.TheConstants.{MAX_TIME as greatest};
ghost use Rattle.qd_time.specs.Buckets.{IsAlign, IsReached, IsStride};

use qd_base::{MAX_TIME, PartUnit, TimeUnit};
use qd_time::{
    Align, Stride, TimeFault, bucket_of, floor_unit, next_bucket, next_unit, parse_interval,
    parse_time, partition_name, print_time,
};
use std::process::Abort;
use std::test::Fail;

/// Checks in which unit of the calendar a moment lies, and where the next begins.
fn check_unit(rt: &impl Abort, ts: u64, unit: PartUnit, start: u64, next: Option<u64>)
    requires { ts ≤ greatest }
{
    assert!(rt; floor_unit(ts, unit) == start);
    assert!(rt; next_unit(ts, unit) == next);
}

#[test]
fn units(rt: HostRuntime) {
    let leap_day = 1_709_164_800_000_000;
    let march = Some(1_709_251_200_000_000);
    check_unit(&rt, leap_day, PartUnit::Month, 1_706_745_600_000_000, march);
    check_unit(&rt, leap_day + 1, PartUnit::Day, leap_day, march);
    let next_hour = Some(leap_day + 3_600_000_000);
    check_unit(&rt, leap_day, PartUnit::Hour, leap_day, next_hour);
    let next_year = Some(1_735_689_600_000_000);
    check_unit(
        &rt,
        leap_day,
        PartUnit::Year,
        1_704_067_200_000_000,
        next_year,
    );
    check_unit(&rt, MAX_TIME, PartUnit::Year, 253_370_764_800_000_000, None);
}

#[test]
fn printed(rt: HostRuntime) {
    assert!(rt; print_time(0) == *b"1970-01-01T00:00:00.000000Z");
    assert!(rt; print_time(1_709_251_198_123_456) == *b"2024-02-29T23:59:58.123456Z");
    assert!(rt; print_time(MAX_TIME) == *b"9999-12-31T23:59:59.999999Z");
}

#[test]
fn names(rt: HostRuntime) -> Result<(), Fail> {
    let cases = [
        (PartUnit::Hour, "2024-02-29T23"),
        (PartUnit::Day, "2024-02-29"),
        (PartUnit::Month, "2024-02"),
        (PartUnit::Year, "2024"),
    ];
    for (unit, name) in cases {
        let found = partition_name(rt.alloc(), 1_709_251_198_123_456, unit)?;
        assert!(rt; found.bytes() == name.as_bytes());
    }
    Ok(())
}

#[test]
fn times(rt: HostRuntime) {
    let read = [
        ("1970", 0),
        ("9999", 253_370_764_800_000_000),
        ("2024-02", 1_706_745_600_000_000),
        ("2024-02-29", 1_709_164_800_000_000),
        ("2000-02-29", 951_782_400_000_000),
        ("2024-02-29 23Z", 1_709_247_600_000_000),
        ("2024-02-29T23:59", 1_709_251_140_000_000),
        ("2024-02-29T23:59:58Z", 1_709_251_198_000_000),
        ("2024-02-29T23:59:58.123", 1_709_251_198_123_000),
        ("2024-02-29T23:59:58.123456", 1_709_251_198_123_456),
        ("9999-12-31 23:59:59.999999Z", MAX_TIME),
    ];
    for (text, want) in read {
        assert!(rt; parse_time(text.as_bytes()) == Ok(want), "at {text}");
    }
}

#[test]
fn no_times(rt: HostRuntime) {
    let none = [
        ("1969", TimeFault::Range),
        ("0000", TimeFault::Range),
        ("1968-02-29", TimeFault::Range),
        ("1969-12-31T23:59:59.999999Z", TimeFault::Range),
        ("", TimeFault::Form),
        ("2024-1", TimeFault::Form),
        ("2024-02-30", TimeFault::Form),
        ("2023-02-29", TimeFault::Form),
        ("2100-02-29", TimeFault::Form),
        ("1969-02-29", TimeFault::Form),
        ("2024-00", TimeFault::Form),
        ("2024-13", TimeFault::Form),
        ("2024-04-31", TimeFault::Form),
        ("2024-01-01T24", TimeFault::Form),
        ("2024-01-01T23:59:60", TimeFault::Form),
        ("2024-01-01T23:59:59.1", TimeFault::Form),
        ("2024-01-01T23:59:59.1234567", TimeFault::Form),
        ("2024-01-01Z", TimeFault::Form),
        ("2024-01-01t00", TimeFault::Form),
        ("10000", TimeFault::Form),
        ("2024-01-01 ", TimeFault::Form),
        ("+024", TimeFault::Form),
    ];
    for (text, fault) in none {
        assert!(rt; parse_time(text.as_bytes()) == Err(fault), "at {text}");
    }
}

#[test]
fn intervals(rt: HostRuntime) {
    let read = [
        ("2024-02", 1_706_745_600_000_000, 1_709_251_199_999_999),
        ("2024-01;1d", 1_704_067_200_000_000, 1_706_831_999_999_999),
        ("2024", 1_704_067_200_000_000, 1_735_689_599_999_999),
        (
            "2024-02-29T23;0s",
            1_709_247_600_000_000,
            1_709_251_199_999_999,
        ),
        (
            "2024-02-29T23:59Z;002m",
            1_709_251_140_000_000,
            1_709_251_319_999_999,
        ),
        (
            "2024-02-29T23:59:58.123;1h",
            1_709_251_198_123_000,
            1_709_254_798_123_999,
        ),
        ("1970;1000000s", 0, 32_535_999_999_999),
        ("9999;1000000d", 253_370_764_800_000_000, MAX_TIME),
    ];
    for (text, first, last) in read {
        assert!(rt;
            parse_interval(text.as_bytes()) == Ok((first, last)),
            "at {text}"
        );
    }
}

#[test]
fn no_intervals(rt: HostRuntime) {
    let none = [
        ("1969;1d", TimeFault::Range),
        ("2024;1000001s", TimeFault::Range),
        ("1969-12;99999999999999999999999h", TimeFault::Range),
        (";1d", TimeFault::Form),
        ("2024;", TimeFault::Form),
        ("2024;d", TimeFault::Form),
        ("2024;1", TimeFault::Form),
        ("2024;1w", TimeFault::Form),
        ("2024;-1d", TimeFault::Form),
        ("1969-13;9999999d", TimeFault::Form),
        ("2024;1d;1d", TimeFault::Form),
    ];
    for (text, fault) in none {
        assert!(rt; parse_interval(text.as_bytes()) == Err(fault), "at {text}");
    }
}

/// Checks where the bucket of a moment begins.
fn check_start(rt: &impl Abort, ts: u64, stride: Stride, align: Align, start: u64)
    requires high { ts ≤ greatest }
    requires stride { IsStride stride }
    requires align { IsAlign align }
    requires reached { IsReached align ts }
{
    assert!(rt; bucket_of(ts, stride, align) == start);
}

/// Checks where the first bucket after a moment begins.
fn check_next(rt: &impl Abort, ts: u64, stride: Stride, align: Align, next: Option<u64>)
    requires high { ts ≤ greatest }
    requires stride { IsStride stride }
    requires align { IsAlign align }
{
    assert!(rt; next_bucket(ts, stride, align) == next);
}

#[test]
fn calendar_buckets(rt: HostRuntime) {
    let ts = 1_704_067_212_345_678;
    let at = |minutes: i32| Align::Calendar { minutes };
    let every = |n: u32, unit: TimeUnit| Stride { n, unit };
    let quarter = every(250, TimeUnit::Milli);
    check_start(&rt, ts, quarter, at(0), 1_704_067_212_250_000);
    check_next(&rt, ts, quarter, at(0), Some(1_704_067_212_500_000));
    check_start(&rt, 0, every(1, TimeUnit::Hour), at(30), 0);
    check_start(
        &rt,
        ts,
        every(7, TimeUnit::Day),
        at(-90),
        1_703_716_200_000_000,
    );
    check_next(&rt, MAX_TIME, every(1_000_000, TimeUnit::Day), at(0), None);
    check_start(
        &rt,
        ts,
        every(1, TimeUnit::Year),
        at(330),
        1_672_551_000_000_000,
    );
    check_next(
        &rt,
        ts,
        every(1, TimeUnit::Year),
        at(330),
        Some(1_704_087_000_000_000),
    );
    check_next(
        &rt,
        5,
        every(1, TimeUnit::Month),
        at(-30),
        Some(2_676_600_000_000),
    );
}

#[test]
fn counted_buckets(rt: HostRuntime) {
    let t0 = 1_706_704_200_000_000;
    let first = Align::First { t0 };
    let month = Stride {
        n: 1,
        unit: TimeUnit::Month,
    };
    check_start(&rt, 1_709_209_799_000_000, month, first, t0);
    check_next(&rt, t0, month, first, Some(1_709_209_800_000_000));
    check_next(
        &rt,
        1_709_209_800_000_000,
        month,
        first,
        Some(1_711_888_200_000_000),
    );
    check_start(&rt, MAX_TIME, month, first, 253_402_259_400_000_000);
    check_next(&rt, MAX_TIME, month, first, None);
    check_next(&rt, 0, month, first, Some(t0));
}
