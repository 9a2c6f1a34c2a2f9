//! How a request for metrics is answered.
ghost use Rattle.std.specs.Prelude.{◌≡◌, IfOk, option_map};
ghost use Rattle.desk.specs.Candidates.{text_of};
ghost use Rattle.desk.specs.Replies.{metrics_reply, scrape_reply};

use std::alloc::{AllocError, Global};

/// The reply to who asks without the operator's key: no memory is wanted for it.
const NO_KEY: &[u8] =
    b"HTTP/1.1 403 Forbidden\r\nContent-Type: application/json\r\nCache-Control: no-store\r\nPragma: no-cache\r\nContent-Length: 25\r\n\r\n{\"error\":\"access_denied\"}";

/// The one where memory was refused.
const NO_MEMORY: &[u8] = b"HTTP/1.1 503 Service Unavailable\r\nContent-Length: 0\r\n\r\n";

/// The bytes of the reply that tells metrics, which are this text.
pub fn metrics_reply(alloc: Global, text: &[u8]) -> Result<Vec<u8>, AllocError>
    ensures { IfOk result (λ bytes. bytes.items ≡ metrics_reply text.now) }
{
    let head = format!(in alloc;
        "HTTP/1.1 200 OK\r\nContent-Type: text/plain; version=0.0.4\r\nCache-Control: no-store\r\nConnection: close\r\nContent-Length: {}\r\n\r\n",
        text.len()
    )?;
    let mut bytes = head.into_bytes();
    bytes.extend_from_slice(text)?;
    Ok(bytes)
}

/// The bytes of the reply to who asks for metrics, which are this page, with the operator's key: it is refused without that, and it is told
/// that none can be had where memory for it was refused.
pub fn scrape_reply(with_key: bool, page: &Option<Vec<u8>>) -> &[u8]
    ensures { result.now ≡ scrape_reply with_key (option_map text_of page.now) }
{
    if !with_key {
        return NO_KEY;
    }
    match page {
        Some(page) => page.as_slice(),
        None => NO_MEMORY,
    }
}
