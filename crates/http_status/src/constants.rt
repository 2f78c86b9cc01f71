//! The header field of a request's id, and the media types of bodies.

/// The name of the header field that holds the id of a request.
pub const HEADER_REQUEST_ID: &str = "x-request-id";

/// The media type of any bytes (RFC 2046, section 4.5.1).
pub const CONTENT_TYPE_OCTET_STREAM: &str = "application/octet-stream";

/// The media type of a JSON text (RFC 8259, section 11).
pub const CONTENT_TYPE_JSON: &str = "application/json";

/// The media type of JSON texts of one line each.
pub const CONTENT_TYPE_NDJSON: &str = "application/x-ndjson";

/// The media type of the pairs of a form (URL Standard, section 5).
pub const CONTENT_TYPE_URL_ENCODED: &str = "application/x-www-form-urlencoded";

/// The media type of a form in parts (RFC 7578).
pub const CONTENT_TYPE_MULTIPART_FORM_DATA: &str = "multipart/form-data";
