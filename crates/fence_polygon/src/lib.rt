//! A geofence, after the polygon vertices of the MAVLink mission protocol: which places it lets the vehicle be at, by
//! the even-odd rule over the edges of each polygon.
#![tactic(auto)]

mod band;
mod cut;
mod edge;
mod fence;
mod polygon;
mod turn;
mod vertex;

pub use band::{Band, MAX_BANDS};
pub use fence::Fence;
pub use polygon::polygon_size;
pub use turn::cross_product;
