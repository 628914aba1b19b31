// What set-up fixed, by value: the number of ports, the edition that its values follow, and the device.
// No ghost field says that there are at most 64 ports: the definitions have models of any content.
#[derive(Clone, Copy, Debug, PartialEq, Eq)]
pub struct Model {
    pub ports: u32,
    pub edition: u32,
    pub device: u32,
}
