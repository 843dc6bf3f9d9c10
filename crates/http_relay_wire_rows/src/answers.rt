use http_relay_forward::{OwnAnswer, continue_text};

// The status and the text of an answer, and what they have to be.
#[test]
fn own_answers_have_their_texts(rt: HostRuntime) {
    let cases = [
        (
            OwnAnswer::BadRequest.status(),
            OwnAnswer::BadRequest.text(),
            400,
            b"HTTP/1.1 400 Bad Request\r\nContent-Length: 0\r\nConnection: close\r\n\r\n".as_slice(),
        ),
        (
            OwnAnswer::RequestTimeout.status(),
            OwnAnswer::RequestTimeout.text(),
            408,
            b"HTTP/1.1 408 Request Timeout\r\nContent-Length: 0\r\nConnection: close\r\n\r\n",
        ),
        (
            OwnAnswer::InternalServerError.status(),
            OwnAnswer::InternalServerError.text(),
            500,
            b"HTTP/1.1 500 Internal Server Error\r\nContent-Length: 0\r\nConnection: close\r\n\r\n",
        ),
        (
            OwnAnswer::BadGateway.status(),
            OwnAnswer::BadGateway.text(),
            502,
            b"HTTP/1.1 502 Bad Gateway\r\nContent-Length: 0\r\nConnection: close\r\n\r\n",
        ),
        (
            OwnAnswer::ServiceUnavailable.status(),
            OwnAnswer::ServiceUnavailable.text(),
            503,
            b"HTTP/1.1 503 Service Unavailable\r\nContent-Length: 0\r\nConnection: close\r\n\r\n",
        ),
        (
            OwnAnswer::GatewayTimeout.status(),
            OwnAnswer::GatewayTimeout.text(),
            504,
            b"HTTP/1.1 504 Gateway Timeout\r\nContent-Length: 0\r\nConnection: close\r\n\r\n",
        ),
        (100, continue_text(), 100, b"HTTP/1.1 100 Continue\r\n\r\n"),
    ];
    for (status, text, expected_status, expected_text) in &cases {
        assert!(rt;
            status == expected_status && text == expected_text,
            "{expected_status}"
        );
    }
}
