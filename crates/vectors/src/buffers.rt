// What the cases share.

// Buffers for the text and the tree of a case, and for what is lent to the call.
#[derive(Drop)]
pub struct Buffers<'a> {
    pub text: &'a mut [u8],
    pub tree: &'a mut [u8],
    pub out: &'a mut [u8],
}
