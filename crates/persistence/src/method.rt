/// The method of the request that a response answers, so far as it decides how the response is
/// read.
#[derive(Clone, Copy, Debug, PartialEq, Eq)]
pub enum Method {
    /// GET.
    Get,
    /// HEAD: its response has no body.
    Head,
}
