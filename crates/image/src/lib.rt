// An image as it was handed in, read as if it were padded with zeros: its bytes, its length, the logo, the title, the colour
// flag and the header's checksum. Nothing is copied, and nothing is read but the bytes asked for.
#![tactic(auto)]

ghost use Rattle.std.specs.Prelude.{◌≡◌, ◌≤◌, length};
ghost use Rattle.image.specs.Image.{byte_at, padded_length, logo_at, is_multicart, checksum_of, TitleEnd, title_of, title_start, place_in, is_colour};

use facts::both;

const NINTENDO_LOGO_DATA: [u8; 48] = [
    0xce, 0xed, 0x66, 0x66, 0xcc, 0x0d, 0x00, 0x0b, 0x03, 0x73, 0x00, 0x83, 0x00, 0x0c, 0x00, 0x0d,
    0x00, 0x08, 0x11, 0x1f, 0x88, 0x89, 0x00, 0x0e, 0xdc, 0xcc, 0x6e, 0xe6, 0xdd, 0xdd, 0xd9, 0x99,
    0xbb, 0xbb, 0x67, 0x63, 0x6e, 0x0e, 0xec, 0xcc, 0xdd, 0xdc, 0x99, 0x9f, 0xbb, 0xb9, 0x33, 0x3e,
];

// A byte of the padded image: past the end stands 0.
pub fn byte_at(image: &[u8], at: usize) -> u8
    ensures { result ≡ byte_at image.now at }
{
    if at < image.len() { image[at] } else { 0 }
}

// The padded length.
pub fn padded_len(image: &[u8]) -> usize
    ensures { result ≡ padded_length (length image.now) }
{
    let n = image.len();
    if n <= 0x8000 {
        return 0x8000;
    }
    (n + 0x3FFF) / 0x4000 * 0x4000
}

// Whether the logo stands at a place of the padded image.
pub fn logo_at(image: &[u8], at: u32) -> bool
    ensures { result ≡ logo_at image.now at }
{
    let start = at as usize;
    for (i, &l) in NINTENDO_LOGO_DATA.iter().enumerate() {
        if byte_at(image, start + i) != l {
            return false;
        }
    }
    true
}

// Whether the padded image has 0x100000 bytes and the logo in all four quarters.
pub fn is_multicart(image: &[u8]) -> bool
    ensures { result ≡ is_multicart image.now }
{
    if padded_len(image) != 0x100000 {
        return false;
    }
    let low = both(logo_at(image, 0x104), logo_at(image, 0x40104));
    let high = both(logo_at(image, 0x80104), logo_at(image, 0xC0104));
    both(low, high)
}

// The header's checksum.
pub fn checksum(image: &[u8]) -> u8
    ensures { result ≡ checksum_of image.now }
{
    let mut c: u8 = 0;
    for at in 0x134..0x14D {
        c = c.wrapping_sub(byte_at(image, at)).wrapping_sub(1);
    }
    c
}

// Whether the game asks for colour.
pub fn is_colour(image: &[u8]) -> bool
    ensures { result ≡ is_colour image.now }
{
    byte_at(image, 0x143) & 0x80 != 0
}

// Where the title ends: before its first zero, or else with its 15 bytes or with the image.
fn title_end(image: &[u8]) -> usize
    requires { 308 ≤ length image.now }
    ensures { TitleEnd image.now result }
{
    let end = image.len().min(0x143);
    match image[0x134..end].iter().position(|b| *b == 0) {
        Some(n) => 0x134 + n,
        None => end,
    }
}

// The title: the part of the image from 0x134 on, at most 15 bytes, that ends before the first zero or with the image.
pub fn title(image: &[u8]) -> &[u8]
    ensures result_value { result.now ≡ title_of image.now }
    ensures ref_ptr_value { result.ref_ptr ≡ place_in image.entry.ref_ptr (title_start (length image.now)) }
{
    let mut a: usize = 0x134;
    if image.len() < a {
        a = 0;
        return &image[a..a];
    }
    let e = title_end(image);
    &image[a..e]
}
