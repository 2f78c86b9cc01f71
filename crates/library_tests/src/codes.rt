//! Status codes of errors, converted.
use http::StatusCode;
use status_codes::{ClientErrorStatusCode, ErrorStatusCode};

#[test]
fn a_code_of_a_client_error_is_both(rt: HostRuntime) {
    match ErrorStatusCode::from_status(StatusCode::CONFLICT) {
        Ok(code) => {
            assert_eq!(rt; code.as_u16(), 409);
            assert_eq!(rt; code.canonical_reason(), Some("Conflict"));
            assert!(rt; code.equals_u16(409) && code.equals_status(StatusCode::CONFLICT));
            assert!(rt; code.is_client_error() && !code.is_server_error());
            match code.as_client_error() {
                Ok(client) => assert!(rt; code.equals_client(client)),
                Err(_) => assert!(rt; false),
            }
        }
        Err(_) => assert!(rt; false),
    }
}

#[test]
fn a_code_of_a_server_error_is_none_of_a_client(rt: HostRuntime) {
    match ErrorStatusCode::from_u16(503) {
        Ok(code) => {
            assert!(rt; code.is_server_error());
            assert!(rt; code.as_status() == StatusCode::SERVICE_UNAVAILABLE);
            assert!(rt; code.as_client_error().is_err());
        }
        Err(_) => assert!(rt; false),
    }
    assert!(rt; ClientErrorStatusCode::from_status(StatusCode::BAD_GATEWAY).is_err());
}

#[test]
fn a_code_of_a_client_is_compared_by_number(rt: HostRuntime) {
    match ClientErrorStatusCode::from_status(StatusCode::GONE) {
        Ok(code) => {
            assert!(rt; code == ClientErrorStatusCode::GONE);
            assert!(rt; code.equals_u16(410) && code.equals_status(StatusCode::GONE));
            assert_eq!(rt; code.canonical_reason(), Some("Gone"));
            assert!(rt; code.as_status() == StatusCode::GONE);
        }
        Err(_) => assert!(rt; false),
    }
}
