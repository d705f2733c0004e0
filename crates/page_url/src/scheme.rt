use page_io::Text;

/// The scheme of a URL, in lower case, or none (RFC 3986, section 3.1; URL Standard, section 4.4, scheme start and scheme state).
#[derive(Debug, Drop)]
pub enum Scheme {
    Nothing,
    Named(Text),
}
