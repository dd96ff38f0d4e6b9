// `answered` called by values: of a changed record, of each reason for no room, and of counts that can't be believed.
use super::*;

#[test]
fn the_changed_record_is_the_answer() -> Result<(), &'static str> {
    let c = Config::new();
    let changed = Config {
        connect_timeout: Some(7),
        ..c
    };
    let a = answered(c, Ok(changed));
    if a.number != 0 {
        return Err("a changed record is refused");
    }
    if a.config.connect_timeout != Some(7) {
        return Err("the record handed back is not the changed one");
    }
    Ok(())
}

#[test]
fn a_fault_leaves_the_record() -> Result<(), &'static str> {
    let c = Config {
        keepalives_retries: Some(3),
        ..Config::new()
    };
    for (fault, number) in [
        (Fault::UnknownKey, 4),
        (Fault::Word, 5),
        (Fault::Form, 5),
        (Fault::Range, 5),
        (Fault::NoAddress, 5),
        (Fault::ManyHosts, 13),
        (Fault::ManyHostaddrs, 14),
        (Fault::ManyPorts, 15),
    ] {
        let a = answered(c, Err(fault));
        if a.number != number {
            return Err("a fault is told by another number");
        }
        if a.config.keepalives_retries != Some(3) {
            return Err("a refusal changes the record");
        }
    }
    Ok(())
}

#[test]
fn a_seventeenth_entry_is_not_believed() -> Result<(), &'static str> {
    let mut c = Config::new();
    c.port.count = 17;
    for changed in [Ok(Config::new()), Err(Fault::ManyPorts)] {
        let a = answered(c, changed);
        if a.number != 17 || a.config.port.count != 17 {
            return Err("a count of 17 is believed");
        }
    }
    c.port.count = 16;
    let a = answered(c, Err(Fault::ManyPorts));
    if a.number != 15 || a.config.port.count != 16 {
        return Err("a count of 16 is not believed");
    }
    Ok(())
}
