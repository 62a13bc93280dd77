//! Why a body is refused.
use es_types::LimitName;

/// Why a body is refused.
#[derive(Clone, Copy)]
pub enum BodyFault {
    /// It is no JSON.
    NotJson,
    /// It is JSON of another form.
    Shape,
    /// It has the form, and breaks a limit.
    Limit(LimitName),
    /// It breaks no limit, and has a text that is no context's id.
    BadId,
}
