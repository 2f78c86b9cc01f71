//! The limits of runs and of sessions: `"limits"` are those of a body and of a line, in bytes, of a body in frames, and
//! of the whole input, `{"body", "line", "frames", "input"}`, as the sample has them where they are left out.
use crate::members::read_number_or;
use case_notation::Reader;
use sample_api::{FRAME_BUDGET, LONGEST_LINE, MOST_INPUT, server_config};
use schema_values::Json;

/// The limits of a run.
#[derive(Clone, Copy)]
pub struct Limits {
    /// The most bytes of a body.
    pub body: u32,
    /// The most frames of a body.
    pub frames: u32,
    /// The most bytes of a line.
    pub line: u32,
    /// The most bytes of the whole input.
    pub input: u32,
}

/// Reads the limits of a case.
pub fn read_limits(reader: &mut Reader, case: &Json) -> Limits {
    match case.get("limits") {
        Some(noted) => {
            reader.check_names(noted, &["body", "frames", "line", "input"]);
            limits_of(reader, noted)
        }
        None => limits_of(reader, &Json::Null),
    }
}

fn limits_of(reader: &mut Reader, noted: &Json) -> Limits {
    let body = server_config().default_request_body_max_bytes;
    // Each has 32 bits: a cast that loses some is refused.
    Limits {
        body: read_number_or(reader, noted, "body", body as u32),
        frames: read_number_or(reader, noted, "frames", FRAME_BUDGET as u32),
        line: read_number_or(reader, noted, "line", LONGEST_LINE as u32),
        input: read_number_or(reader, noted, "input", MOST_INPUT as u32),
    }
}
