//! Lines that clients of HTTP send. Whatever can have a browser fetch a URL can send one to an address of the browser's machine.
ghost use Rattle.std.specs.Prelude.{◌≡◌, nat_eq, codes};
ghost use Rattle.std.specs.List.{list_any, starts_with};
ghost use Rattle.std.specs.Str.{bytes_eq};
ghost use Rattle.command_socket_serve.specs.Requests.{ends_with_word, is_request, methods, parts_words, up_to_last_word};

/// Whether a request of HTTP begins with the line.
#[tactic(auto, unfolding(crate::specs::Requests::is_request))]
pub(crate) fn is_request(line: &[u8]) -> bool
    ensures { result ≡ is_request line.now }
{
    let text = up_to_last_word(line);
    begins_with_method(line) || ends_with_1_0(text) || ends_with_1_1(text)
}

fn begins_with_method(line: &[u8]) -> bool
    ensures { result ≡ list_any (λ method. starts_with nat_eq line.now method) methods }
{
    line.starts_with(b"GET ")
        || line.starts_with(b"HEAD ")
        || line.starts_with(b"POST ")
        || line.starts_with(b"PUT ")
        || line.starts_with(b"DELETE ")
        || line.starts_with(b"CONNECT ")
        || line.starts_with(b"OPTIONS ")
        || line.starts_with(b"TRACE ")
        || line.starts_with(b"PATCH ")
}

fn ends_with_1_0(text: &[u8]) -> bool
    ensures { result ≡ ends_with_word text.now (codes "HTTP/1.0") }
{
    is(text, b"HTTP/1.0") || text.ends_with(b" HTTP/1.0") || text.ends_with(b";HTTP/1.0")
}

fn ends_with_1_1(text: &[u8]) -> bool
    ensures { result ≡ ends_with_word text.now (codes "HTTP/1.1") }
{
    is(text, b"HTTP/1.1") || text.ends_with(b" HTTP/1.1") || text.ends_with(b";HTTP/1.1")
}

/// The line without the spaces and semicolons at its end.
fn up_to_last_word(line: &[u8]) -> &[u8]
    ensures { result.now ≡ up_to_last_word line.now }
{
    let mut text = line;
    while let Some((last, rest)) = text.split_last() {
        if !parts_words(*last) {
            break;
        }
        text = rest;
    }
    text
}

fn parts_words(byte: u8) -> bool
    ensures { result ≡ parts_words byte }
{
    byte == b' ' || byte == b';'
}

fn is(text: &[u8], wanted: &[u8]) -> bool
    ensures { result ≡ bytes_eq text.now wanted.now }
{
    *text == *wanted
}
