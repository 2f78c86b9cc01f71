//! The kinds of bodies that endpoints take.
ghost use Rattle.std.specs.Prelude.{◌≡◌, Some};
ghost use Rattle.std.specs.Result.{result_ok};
ghost use Rattle.request_parts.specs.ContentTypes.{kind_of, mime_of};

use request_words::{is_form_type, is_json_type};

/// The kind of an endpoint's body.
#[derive(Clone, Copy, Debug, PartialEq, Eq)]
pub enum ApiEndpointBodyContentType {
    /// Any bytes.
    Bytes,
    /// JSON (RFC 8259).
    Json,
    /// The pairs of a form (URL Standard, section 5).
    UrlEncoded,
    /// The parts of a form (RFC 7578).
    MultipartFormData,
}

/// A media type that no endpoint takes.
#[derive(Clone, Copy, Debug, PartialEq, Eq)]
pub struct Unsupported;

impl ApiEndpointBodyContentType {
    /// The media type as it stands in a header and in a document. It takes no memory.
    pub fn mime_type(&self) -> &'static str
        ensures media { result.now ≡ mime_of self.now }
        ensures reads_back { kind_of result.now ≡ Some self.now }
    {
        match self {
            ApiEndpointBodyContentType::Bytes => "application/octet-stream",
            ApiEndpointBodyContentType::Json => "application/json",
            ApiEndpointBodyContentType::UrlEncoded => "application/x-www-form-urlencoded",
            ApiEndpointBodyContentType::MultipartFormData => "multipart/form-data",
        }
    }

    /// The kind of a media type in lower case, without parameters: one of the four that `mime_type`
    /// gives, or JSON for `application/` and a subtype whose whole text after its first `+` is
    /// `json`; `Unsupported` for any other. It takes no memory.
    pub fn from_mime_type(mime_type: &str) -> Result<ApiEndpointBodyContentType, Unsupported>
        ensures { result_ok result ≡ kind_of mime_type.now }
    {
        kind_of(mime_type.as_bytes()).ok_or(Unsupported)
    }
}

// The kind of a media type.
fn kind_of(media: &[u8]) -> Option<ApiEndpointBodyContentType>
    ensures { result ≡ kind_of media.now }
{
    if media == b"application/octet-stream".as_slice() {
        Some(ApiEndpointBodyContentType::Bytes)
    } else if is_json_type(media) {
        Some(ApiEndpointBodyContentType::Json)
    } else if is_form_type(media) {
        Some(ApiEndpointBodyContentType::UrlEncoded)
    } else if media == b"multipart/form-data".as_slice() {
        Some(ApiEndpointBodyContentType::MultipartFormData)
    } else {
        None
    }
}
