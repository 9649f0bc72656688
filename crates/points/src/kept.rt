// An image remembered, to see later that nothing but the clock has moved.
use image::peek;

// Remembers the image.
pub(crate) fn keep(image: &[u8], store: &mut [u8]) {
    image::put_bytes(store, 0, image);
}

// Whether every byte is as remembered, but for the clock's six, 0200h-0205h.
pub(crate) fn is_kept(image: &[u8], store: &[u8]) -> bool {
    (0..8832).all(|i| (0x0200..=0x0205).contains(&i) || peek(image, i) == peek(store, i))
}
