//! What a document and a response say of one body, and the texts of the constants.
ghost use Rattle.std.specs.Prelude.{◌≡◌, [], ◌∷◌, codes};
ghost use Rattle.http_status.specs.ErrorBodies.{error_body_tree, error_definition, error_desc};
ghost use Rattle.http_status.specs.declared.error_body.HttpErrorResponseBody as body;

use crate::HttpErrorResponseBody;
use crate::constants::{
    CONTENT_TYPE_JSON, CONTENT_TYPE_MULTIPART_FORM_DATA, CONTENT_TYPE_NDJSON,
    CONTENT_TYPE_OCTET_STREAM, CONTENT_TYPE_URL_ENCODED, HEADER_REQUEST_ID,
};
use api_types::ApiType;

/// The name, the definition, the descriptor and the tree by which the response of an error is told are those
/// of the type of its body. It does nothing: its clauses are for proofs.
pub fn error_bodies_are_typed()
    ensures name { ⟦<HttpErrorResponseBody as ApiType>⟧.name_of ≡ codes "Error" }
    ensures definition { ⟦<HttpErrorResponseBody as ApiType>⟧.definitions_of ≡ error_definition ∷ [] }
    ensures descriptor { ⟦<HttpErrorResponseBody as ApiType>⟧.desc_of ≡ error_desc }
    ensures tree { (value : body.HttpErrorResponseBody)
        → ⟦<HttpErrorResponseBody as ApiType>⟧.tree_of value ≡ error_body_tree value }
{}

/// The text of each constant. It does nothing: its clauses are for proofs.
pub fn constants_have_texts()
    ensures request_id { HEADER_REQUEST_ID.now ≡ codes "x-request-id" }
    ensures octet_stream { CONTENT_TYPE_OCTET_STREAM.now ≡ codes "application/octet-stream" }
    ensures json { CONTENT_TYPE_JSON.now ≡ codes "application/json" }
    ensures ndjson { CONTENT_TYPE_NDJSON.now ≡ codes "application/x-ndjson" }
    ensures url_encoded { CONTENT_TYPE_URL_ENCODED.now ≡ codes "application/x-www-form-urlencoded" }
    ensures form_data { CONTENT_TYPE_MULTIPART_FORM_DATA.now ≡ codes "multipart/form-data" }
{}
