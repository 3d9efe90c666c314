// The tool on examples.
use super::figure;
use model::calls::{Parcel, Refusal};

const fn parcel(bytes: u64, arrival: u64) -> Parcel {
    Parcel { bytes, arrival }
}

#[test]
fn figures(rt: HostRuntime) {
    let packets = [parcel(10, 0), parcel(10, 0), parcel(10, 30)];
    assert_eq!(rt; figure(2, &packets), Ok(40));
    assert_eq!(rt; figure(3, &packets), Ok(60));
    assert_eq!(rt; figure(4, &packets), Ok(90));
    assert_eq!(rt; figure(2, &packets[2..]), Ok(20));
    assert_eq!(rt; figure(2, &[]), Ok(0));
    let far = [parcel(9_216, 0), parcel(9_216, u64::MAX)];
    assert_eq!(rt; figure(55_440, &far), Ok(510_935_040));
}

#[test]
fn refusals(rt: HostRuntime) {
    assert_eq!(rt; figure(0, &[]), Err(Refusal::List));
    assert_eq!(rt; figure(13, &[]), Err(Refusal::List));
    assert_eq!(rt; figure(2, &[parcel(0, 5)]), Err(Refusal::List));
    assert_eq!(rt; figure(2, &[parcel(9_217, 5)]), Err(Refusal::List));
    assert_eq!(rt;
        figure(2, &[parcel(10, 5), parcel(10, 4)]),
        Err(Refusal::List)
    );
    assert!(rt; figure(2, &[parcel(1, 5), parcel(9_216, 5)]).is_ok());
}

#[test]
fn longest_list(rt: HostRuntime) {
    let packets = [parcel(1, 0); 4_097];
    assert_eq!(rt; figure(1, &packets), Err(Refusal::List));
    assert_eq!(rt; figure(1, &packets[1..]), Ok(4_096));
}
