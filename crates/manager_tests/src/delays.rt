use manager_config::{ConnectionManagerConfig, backoff_ms};

/// A configuration by its minimal delay, its maximal delay and its fraction.
type Delays = (u64, Option<u64>, (u32, u32));

fn config(delays: &Delays) -> ConnectionManagerConfig {
    let (numerator, denominator) = delays.2;
    let config = ConnectionManagerConfig::new()
        .set_min_delay(delays.0)
        .set_exponent_base(numerator, denominator);
    match delays.1 {
        None => config,
        Some(most) => config.set_max_delay(most),
    }
}

/// What is drawn after this attempt, and how long is waited.
type Row = (Delays, u32, u64, u64);

const DEFAULT: Delays = (100, None, (2, 1));

const LIMITED: Delays = (100, Some(120), (2, 1));

const GREATEST: u64 = 18_446_744_073_709_551_615;

const LAST: u32 = 4_294_967_295;

const ROWS: [Row; 20] = [
    (DEFAULT, 0, 250, 50),
    (DEFAULT, 1, 250, 50),
    (DEFAULT, 2, 250, 250),
    (DEFAULT, 0, 99, 99),
    (DEFAULT, 0, 100, 0),
    (DEFAULT, 3, 799, 799),
    (DEFAULT, 3, 800, 0),
    (DEFAULT, 63, GREATEST, 0),
    (DEFAULT, LAST, 17, 17),
    (LIMITED, 2, 250, 120),
    (LIMITED, 2, 120, 120),
    (LIMITED, 2, 119, 119),
    ((100, Some(0), (2, 1)), 0, 50, 0),
    ((0, None, (2, 1)), 5, 250, 0),
    ((100, None, (1, 1)), LAST, 250, 50),
    ((100, None, (1, 10)), 1, 250, 0),
    ((100, None, (1, 10)), LAST, 250, 0),
    ((100, None, (0, 1)), 1, 250, 0),
    ((3, None, (3, 2)), 2, 250, 4),
    ((GREATEST, None, (LAST, 1)), LAST, 250, 250),
];

#[test]
fn delays_grow_with_the_attempts(rt: HostRuntime) {
    for row in &ROWS {
        let config = config(&row.0);
        let holds = config.exponent_base().1 > 0 && backoff_ms(&config, row.1, row.2) == row.3;
        assert!(rt; holds, "attempt {}, draw {}", row.1, row.2);
    }
}
