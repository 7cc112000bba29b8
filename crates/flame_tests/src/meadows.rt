//! The population of a small meadow, which another program drew.

use flame_trial::meadow_population;
use std::test::Fail;

/// The population of five agents, drawn from seed 7.
const FIVE: &str = concat!(
    r#"{"states":{"itno":0,"environment":{"cells":2,"grass":3},"agents":["#,
    r#"{"name":"Rabbit","memory":{"cell":0,"energy":7}},"#,
    r#"{"name":"Rabbit","memory":{"cell":0,"energy":1}},"#,
    r#"{"name":"Rabbit","memory":{"cell":1,"energy":5}},"#,
    r#"{"name":"Fox","memory":{"cell":1,"energy":1}},"#,
    r#"{"name":"Rabbit","memory":{"cell":1,"energy":4}}],"boards":[]}}"#,
    "\n",
);

#[test]
fn a_population_is_drawn(rt: HostRuntime) -> Result<(), Fail> {
    let five = meadow_population(rt.alloc(), 7, 5)?;
    assert!(rt; five.bytes() == FIVE.as_bytes());
    Ok(())
}
