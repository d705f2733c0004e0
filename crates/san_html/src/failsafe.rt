/// What is written where a value may not stand.
pub const FAILSAFE: &str = "ZgotmplZ";
