//! Settings that are out of their ranges, by name.

/// Returns the name of a setting by its number in `PlanError::Settings`.
pub fn setting_name(number: u8) -> &'static str {
    match number {
        0 => "METHOD",
        1 => "ORDER",
        2 => "FAN",
        3 => "P1",
        4 => "P2",
        _ => "P3",
    }
}

/// Returns the rule for the setting with this number under a method (1 DIJ, 2 FULL, 3 LDM, 4 HYP).
pub fn plan_rule(method: u8, number: u8) -> &'static str {
    match (number, method) {
        (0, _) => "It must be one of the four methods.",
        (1, _) => "It must be one of the six leaf orders.",
        (2, _) => "It must be from 2 to 32.",
        (3, 3) =>
            "Under ldm it is the count of landmarks, from 1 to 64 and at most the count of nodes.",
        (4, 3) => "Under ldm it is the bits of a code, from 1 to 16.",
        (_, 3) => "Under ldm it is the threshold of references, from 0 to 65534.",
        (3, 4) => "Under hyp it is the count of columns, from 1 to 1024.",
        (4, 4) => "Under hyp it is the count of rows, from 1 to 1024.",
        (_, 4) => "Under hyp it is 0.",
        _ => "Under dij and full it is 0.",
    }
}
