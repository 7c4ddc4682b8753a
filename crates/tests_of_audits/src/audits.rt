// What an audit lists that no words of the program ask for: another serial than the configuration has.
use crate::told::audits_as;

// In copy B the serial is the one that is asked for, and copy A counts.
const DIFFERS: &str = "MSS AUDIT 1\n\
     finding 1 volume 0 copies differ place 7 values 57 49\n\
     finding 2 volume 0 serial VOL009 asked VOL001\n\
     END\n";

#[test]
fn lists_a_serial_that_is_not_asked_for(rt: HostRuntime) {
    assert!(rt; audits_as(rt.alloc(), DIFFERS) == Some(true));
}
