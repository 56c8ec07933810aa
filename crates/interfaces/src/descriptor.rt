// The device descriptor and the bundle: the configuration descriptor with all its interfaces and endpoints.
// Each is made of constant pieces, in which the layout and the IDs presented fill in a few bytes.
ghost use Rattle.std.specs.Prelude.{◌≡◌, ◌<◌, ◌≤◌, [], ◌∷◌, length};
ghost use Rattle.model.specs.Descriptors.{weighed, product_bits, device_descriptor, configuration, interface_piece, bundle};

use crate::table::Interfaces;
use layout::table::Layout;
use lists::list::FixedList;
use model::ids::{Ids, Interface};
use model::limits::{BULK_ONLY, LOCKABLE, MOST_INTERFACES};

// Descriptor types, each the second byte of its descriptor.
const DEVICE: u8 = 0x01;

const CONFIGURATION: u8 = 0x02;

const INTERFACE: u8 = 0x04;

const ENDPOINT: u8 = 0x05;

// The bytes of each kind of descriptor, which its first byte tells.
const DEVICE_BYTES: usize = 18;

const CONFIGURATION_BYTES: usize = 9;

const INTERFACE_BYTES: usize = 9;

const LOCKABLE_BYTES: usize = 3;

const ENDPOINT_BYTES: usize = 7;

// An interface has two endpoints: bulk in and bulk out.
const ENDPOINTS: u8 = 2;

const PIECE_BYTES: usize = INTERFACE_BYTES + LOCKABLE_BYTES + 2 * ENDPOINT_BYTES;

// A bundle of as many interfaces as a stick may have.
pub const LONGEST_BUNDLE: usize = CONFIGURATION_BYTES + PIECE_BYTES * MOST_INTERFACES;

// USB 2.00, low byte first.
const USB_2_00: [u8; 2] = [0x00, 0x02];

// What a field says of what there is not: a class of the whole stick, a string but the serial number, an option.
const NONE: u8 = 0x00;

// The bytes of a packet, of control transfers and of both endpoints.
const PACKET_BYTES: u8 = 64;

// The index of the serial number, the one string that a stick names.
const SERIAL_NUMBER: u8 = 1;

// There is one configuration, and this is its number.
const CONFIGURATIONS: u8 = 1;

const CONFIGURATION_VALUE: u8 = 1;

// Powered by the bus, with 100 mA in steps of 2.
const BUS_POWERED: u8 = 0x80;

const MILLIAMPERES: u8 = 100;

// The class of an interface, and how its endpoints transfer.
const MASS_STORAGE: u8 = 0x08;

const BULK: u8 = 0x02;

// The direction in an endpoint's address: to the host.
const TO_HOST: u8 = 0x80;

// A weight, counted for Negotiable IDs only.
fn weighed(ids: Ids, weight: u16) -> u16
    ensures value { result ≡ weighed ids weight }
    ensures bound { result ≤ weight }
{
    match ids {
        Ids::Negotiable => weight,
        Ids::ScsiBbb => 0,
    }
}

// What the Negotiable interfaces add to the product base: a bit of its own for each.
// By a loop, whose invariant bounds the sum by the weights, one by one.
fn product_bits(interfaces: &[Interface]) -> u16
    requires { length interfaces.now ≤ 4 }
    ensures value { result ≡ product_bits 0 interfaces.now }
    ensures bound { result < 16 }
{
    let mut bits = 0;
    let mut weight = 1;
    for interface in interfaces {
        bits += weighed(interface.ids, weight);
        weight *= 2;
    }
    bits
}

// The device descriptor of a stick with this layout, which tells by idProduct which interfaces are Negotiable.
pub fn device_descriptor(layout: &Layout, interfaces: &Interfaces) -> [u8; DEVICE_BYTES]
    ensures { result ≡ device_descriptor layout.now interfaces.now }
{
    let product = layout.product_base() + product_bits(&interfaces.list);
    let [u0, u1] = USB_2_00;
    let [v0, v1] = layout.vendor().to_le_bytes();
    let [p0, p1] = product.to_le_bytes();
    let [r0, r1] = layout.release().to_le_bytes();
    let [class, subclass, protocol] = [NONE; 3];
    let [manufacturer, product_name] = [NONE; 2];
    [
        DEVICE_BYTES as u8,
        DEVICE,
        u0,
        u1,
        class,
        subclass,
        protocol,
        PACKET_BYTES,
        v0,
        v1,
        p0,
        p1,
        r0,
        r1,
        manufacturer,
        product_name,
        SERIAL_NUMBER,
        CONFIGURATIONS,
    ]
}

// The configuration descriptor itself.
fn configuration(total: u16, interface_count: u8) -> [u8; CONFIGURATION_BYTES]
    ensures { result ≡ configuration total interface_count }
{
    let [t0, t1] = total.to_le_bytes();
    [
        CONFIGURATION_BYTES as u8,
        CONFIGURATION,
        t0,
        t1,
        interface_count,
        CONFIGURATION_VALUE,
        NONE,
        BUS_POWERED,
        MILLIAMPERES / 2,
    ]
}

// A bulk endpoint's descriptor: the bytes of a packet are in two bytes, low byte first, and a bulk endpoint is not polled.
fn endpoint(address: u8) -> [u8; ENDPOINT_BYTES]
    ensures { result ≡ 0x07 ∷ 0x05 ∷ address ∷ 0x02 ∷ 0x40 ∷ 0x00 ∷ 0x00 ∷ [] }
{
    [
        ENDPOINT_BYTES as u8,
        ENDPOINT,
        address,
        BULK,
        PACKET_BYTES,
        NONE,
        NONE,
    ]
}

// One interface: its descriptor, the lockable extension, and its endpoints, bulk in and bulk out.
fn interface_piece(number: u8, ids: Ids) -> [u8; PIECE_BYTES]
    requires { number < 4 }
    ensures { result ≡ interface_piece number ids }
{
    let [i0, i1, i2, i3, i4, i5, i6] = endpoint(TO_HOST + 1 + number);
    let [o0, o1, o2, o3, o4, o5, o6] = endpoint(1 + number);
    [
        INTERFACE_BYTES as u8,
        INTERFACE,
        number,
        NONE,
        ENDPOINTS,
        MASS_STORAGE,
        u8::from(ids),
        BULK_ONLY,
        NONE,
        LOCKABLE_BYTES as u8,
        LOCKABLE,
        NONE,
        i0,
        i1,
        i2,
        i3,
        i4,
        i5,
        i6,
        o0,
        o1,
        o2,
        o3,
        o4,
        o5,
        o6,
    ]
}

impl Interfaces {
    // The bundle of these interfaces.
    pub fn bundle(&self) -> FixedList<u8, LONGEST_BUNDLE>
        ensures { result ≡ bundle self.now }
    {
        let count = self.list.iter().len();
        let total = CONFIGURATION_BYTES + PIECE_BYTES * count;
        let mut bytes = FixedList::new();
        bytes.extend_from_slice(&configuration(total as u16, count as u8));
        for (i, interface) in self.list.iter().enumerate() {
            bytes.extend_from_slice(&interface_piece(i as u8, interface.ids));
        }
        bytes
    }
}
