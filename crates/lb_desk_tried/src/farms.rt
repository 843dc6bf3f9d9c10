//! Farms, as configurations say them.

use anyhow::{Context, Result, bail};
use lb_config::read_config;
use lb_desk_backend::backend_of;
use lb_desk_model::Backend;
use std::alloc::Global;

/// The backend of a configuration that has one.
pub fn backend_in(alloc: Global, text: &str) -> Result<Backend> {
    let Ok(config) = read_config(alloc, text.as_bytes()) else {
        bail!("a fault in a farm");
    };
    let configured = config.backends().first().context("no backend")?;
    Ok(backend_of(alloc, configured)?)
}
