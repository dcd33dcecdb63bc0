//! Tests of the devices, the machine and the image by their own calls: what no case file can say.
#![tactic(auto)]

#[cfg(test)]
mod devices;
#[cfg(test)]
mod firmware;
#[cfg(test)]
mod images;
#[cfg(test)]
mod machines;
#[cfg(test)]
mod memory;
#[cfg(test)]
mod platforms;
#[cfg(test)]
mod processors;
