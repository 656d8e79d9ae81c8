//! Generated sources, and what is told of them.

use big_source::{big_source, summary};
use std::test::Fail;
use tm_cint::Class;
use tm_terms::{Alarm, Place, Report};

// The source of the number 2.
static TWO: &str = "__mutex m;\nint n;\nint b[16];\n\
    int f0(int v){if(v>0)return v-0;return 0;}\n\
    int f1(int v){if(v>1)return v-1;return 1;}\n\
    __task(1) void t0(void){int z;z=0;while(1){__lock(m);z=f0(z);if(n<16){b[n]=z;n=n+1;}__unlock(m);__yield();}}\n\
    __task(1) void t1(void){int z;z=1;while(1){__lock(m);z=f1(z);if(n<16){b[n]=z;n=n+1;}__unlock(m);__yield();}}\n\
    __task(1) void t2(void){int z;z=2;while(1){__lock(m);if(n<16){b[n]=z;n=n+1;}__unlock(m);__yield();}}\n\
    __task(1) void t3(void){int z;z=3;while(1){__lock(m);if(n<16){b[n]=z;n=n+1;}__unlock(m);if(n==3)z=0;__yield();}}\n";

// A number, and how many bytes its source has.
static LENGTHS: [(u32, usize); 6] = [
    (1, 496),
    (2, 547),
    (17, 1347),
    (100, 5995),
    (200, 12095),
    (400, 24295),
];

#[test]
fn sources(rt: HostRuntime) -> Result<(), Fail> {
    let alloc = rt.alloc();
    let two = big_source(alloc, 2)?;
    assert!(rt; two.as_str() == TWO);
    for (number, bytes) in LENGTHS.iter() {
        let source = big_source(alloc, *number)?;
        assert!(rt; source.len() == *bytes);
    }
    let place = Place { line: 1, col: 1 };
    let class = Class::Race;
    let alarms = vec![in alloc; Alarm { place, class }, Alarm { place, class }]?;
    let told = summary(alloc, two.as_bytes(), &Report { alarms })?;
    assert!(rt; told.as_str() == "source 547 bytes\nalarms 2\n");
    Ok(())
}
