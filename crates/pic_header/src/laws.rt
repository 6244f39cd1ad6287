//! Laws of a header's format. Each is the contract of a function that does nothing.

ghost use Rattle.pic_header.specs.Readable.{HeadersAreRead};
ghost use Rattle.pic_header.specs.Spelling.{HeadersAreSpelled, NoHeaderBeginsAnother};

/// The text of every header that its type keeps is read as that header, whatever follows it.
pub fn headers_are_read()
    ensures { HeadersAreRead }
{}

/// Bytes that are read as a header begin with its text, and no other header's text begins it.
pub fn headers_have_one_spelling()
    ensures spelled { HeadersAreSpelled }
    ensures apart { NoHeaderBeginsAnother }
{}
