use irig_time::{FIRST_DAY, LAST_DAY, read_day};

#[test]
fn days_have_their_dates(rt: HostRuntime) {
    let rows = [
        ("2000-01-01", Some(0)),
        ("2000-01-02", Some(FIRST_DAY)),
        ("2016-12-31", Some(6209)),
        ("2099-12-30", Some(LAST_DAY)),
        ("2099-12-31", Some(36524)),
        ("2100-01-01", None),
        ("2017-02-29", None),
        ("2016-6-15", None),
    ];
    for (text, day) in rows {
        assert!(rt; read_day(text.as_bytes()) == day);
    }
}
