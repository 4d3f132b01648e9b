use device::Page;

// A page that the cache holds.
#[derive(Clone, Copy)]
pub struct Copied {
    pub page: u32,
    // written to since the device below had these bytes
    pub changed: bool,
    pub bytes: Page,
}
