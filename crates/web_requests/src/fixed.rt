// Replies that are always the same.
ghost use Rattle.std.specs.Prelude.{◌≡◌};
ghost use Rattle.web_requests.specs.Answers.{no_entry_reply, no_memory_reply};

/// The reply where there was no memory for another. It takes no memory.
pub fn no_memory_text() -> &'static [u8]
    ensures { result.now ≡ no_memory_reply }
{
    b"HTTP/1.1 503 Service Unavailable\r\n\
Content-Type: application/json\r\nContent-Length: 20\r\n\r\n{\"fault\":\"NoMemory\"}"
}

/// The reply where what was seen could not be looked at. It takes no memory.
pub fn no_entry_text() -> &'static [u8]
    ensures { result.now ≡ no_entry_reply }
{
    b"HTTP/1.1 500 Internal Server Error\r\n\
Content-Type: application/json\r\nContent-Length: 19\r\n\r\n{\"fault\":\"NoEntry\"}"
}
