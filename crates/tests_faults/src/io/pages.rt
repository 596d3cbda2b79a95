//! A write into a page's image.
use bp_page::Image;

// Bytes are written into a copy of an image. No other crate calls `patched`.
#[test]
fn bytes_are_put_into_an_image(rt: HostRuntime) {
    let image = Image::of(rt.alloc(), b"a page of letter").expect(&rt, "the image");
    assert!(rt; image.bytes().len() == 16);
    let patched = image
        .patched(rt.alloc(), 2, b"PAGE")
        .expect(&rt, "the image");
    assert_eq!(rt; patched.bytes(), b"a PAGE of letter".as_slice());
    assert_eq!(rt; image.bytes(), b"a page of letter".as_slice());
}
